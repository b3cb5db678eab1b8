//! The reading of a journal, line by line.
ghost use Rattle.std.specs.Prelude.{◌≡◌, ◌+◌, ◌<◌, ◌^◌, Ok, Err, false, IfOk, IfErr, IfSome, OnOk, IsSome, option_map};
ghost use Rattle.std.specs.List.{AllByRecursion};
ghost use Rattle.tcf_schedules.specs.Refusal.{Refuses};
ghost use Rattle.tcf_schedules.specs.Schedule.{is_skipped};
ghost use Rattle.tcf_text.specs.Reading.{line_of};
ghost use Rattle.journal_text.specs.Inputs.{InputIsRead};
ghost use Rattle.journal_text.specs.Images.{images_as};
ghost use Rattle.journal_text.specs.Journal.{JournalWantsMemory, after_line, and_log_line, at_line, head_of, image_line, journal_of, nothing, whole, with_head, with_image};
ghost use Rattle.journal_text.specs.Read.{HeadIsRead, head_said, image_in_line};

use crate::inputs::read_input;
use crate::journal::{Images, Inputs, Journal, LogLines};
use line_words::first_word;
use std::alloc::{AllocError, Global};
use std::marker::Model;
use target_contexts::Image;
use target_hub::Input;
use tcf_schedules::{
    ImageList, ImageSays, NamedImage, TextFault, TextRefusal, cut_line, image_in, image_word,
    is_blank_or_comment,
};
use tcf_text::read_line;

/// A line that stands before the log.
#[derive(Drop)]
enum HeadSays<'a> {
    Image(ImageSays<'a>),
    Input(Input),
    Log,
}

/// The image of a line with this first word.
fn image_says(line: &[u8]) -> Option<ImageSays<'_>>
    ensures { option_map image_in_line result ≡ image_line line.now }
{
    let (word, rest) = first_word(line)?;
    if word == image_word() {
        image_in(rest)
    } else {
        None
    }
}

/// What the line says, if it is one that stands before the log, or `log` itself.
#[tactic(auto, unfolding(crate::specs::Journal::head_of, crate::specs::Journal::log_word))]
fn head_says(alloc: Global, line: &[u8]) -> Result<Option<HeadSays<'_>>, AllocError>
    ensures value { IfOk result (λ head. option_map head_said head ≡ head_of line.now) }
    ensures read { IfOk result (λ head. IfSome head HeadIsRead) }
{
    if line == b"log".as_slice() {
        return Ok(Some(HeadSays::Log));
    }
    if let Some(image) = image_says(line) {
        return Ok(Some(HeadSays::Image(image)));
    }
    match read_input(alloc, line)? {
        Some(input) => Ok(Some(HeadSays::Input(input))),
        None => Ok(None),
    }
}

/// What the lines so far said; there are lines of the log from `log` on.
#[derive(Drop)]
struct Reading<'a> {
    alloc: Global,
    images: ImageList<'a>,
    inputs: Inputs,
    lines: Option<LogLines>,
}

impl<'a> Model for Reading<'a> {
    ghost use Rattle.std.specs.List.{AllByRecursion};
    ghost use Rattle.journal_text.specs.Images.{images_as};
    ghost use Rattle.journal_text.specs.Inputs.{InputIsRead};
    ghost use Rattle.journal_text.specs.Journal.{SoFar};

    ghost Value = { SoFar };

    ghost view = { λ r. record { images = images_as r.images; inputs = r.inputs; lines = r.lines } };

    ghost invariant = { λ r. AllByRecursion InputIsRead r.inputs };
}

/// The refusal of the line of this number.
fn bad(line: u64, what: TextFault) -> TextRefusal
    ensures { result ≡ TextRefusal.Bad line what }
{
    TextRefusal::Bad { line, what }
}

/// The images, as a target has them.
fn images_from(alloc: Global, named: Vec<NamedImage>) -> Result<Images, AllocError>
    ensures { IfOk result (λ images. images ≡ images_as named.items) }
{
    let mut images = Images::new(alloc);
    for image in named {
        images.push(Image {
            name: image.name,
            bytes: image.bytes,
        })?;
    }
    Ok(images)
}

impl<'a> Reading<'a> {
    fn new(alloc: Global) -> Self
        ensures { result ≡ nothing }
    {
        Reading {
            alloc,
            images: ImageList::new(alloc),
            inputs: Inputs::new(alloc),
            lines: None,
        }
    }

    /// Adds the image, if no input stands before it and its name is new.
    #[tactic(auto, using(crate::proofs::Imaging::same_names, crate::proofs::Imaging::one_image_more))]
    fn add_image(&mut self, line: u64, says: &ImageSays<'a>) -> Result<(), TextRefusal>
        ensures ok { OnOk result (with_image says.now.name.now says.now.digits.now self.old ≡ Ok self.new) }
        ensures bad { IfErr result (Refuses (at_line line (with_image says.now.name.now says.now.digits.now self.old))) }
    {
        if !self.inputs.is_empty() {
            return Err(bad(line, TextFault::Late));
        }
        if self.images.has(says.name) {
            return Err(bad(line, TextFault::Repeat));
        }
        self.images.push(self.alloc, says)?;
        Ok(())
    }

    /// Adds what a line says that stands before the log.
    fn add_head(&mut self, number: u64, line: &'a [u8]) -> Result<(), TextRefusal>
        ensures ok { OnOk result (with_head (head_of line.now) self.old ≡ Ok self.new) }
        ensures bad { IfErr result (Refuses (at_line number (with_head (head_of line.now) self.old))) }
    {
        match head_says(self.alloc, line)? {
            Some(HeadSays::Image(says)) => self.add_image(number, &says),
            Some(HeadSays::Input(input)) => {
                self.inputs.push(input)?;
                Ok(())
            }
            Some(HeadSays::Log) => {
                self.lines = Some(LogLines::new(self.alloc));
                Ok(())
            }
            None => Err(bad(number, TextFault::Form)),
        }
    }

    /// Takes the line of this number, behind `log`.
    fn take_log_line(
        alloc: Global,
        lines: &mut LogLines,
        number: u64,
        line: &[u8],
    ) -> Result<(), TextRefusal>
        ensures ok { OnOk result (and_log_line lines.old (line_of line.now) (head_of line.now) ≡ Ok lines.new) }
        ensures bad { IfErr result (Refuses (at_line number (and_log_line lines.old (line_of line.now) (head_of line.now)))) }
    {
        match read_line(alloc, line)? {
            Some(said) => {
                lines.push(said)?;
                Ok(())
            }
            None => match head_says(alloc, line)? {
                Some(HeadSays::Image(_)) | Some(HeadSays::Input(_)) => {
                    Err(bad(number, TextFault::Late))
                }
                _ => Err(bad(number, TextFault::Form)),
            },
        }
    }

    /// Takes the line of this number.
    fn take_line(&mut self, number: u64, line: &'a [u8]) -> Result<(), TextRefusal>
        ensures ok { OnOk result (after_line self.old line.now ≡ Ok self.new) }
        ensures bad { IfErr result (Refuses (at_line number (after_line self.old line.now))) }
        ensures kept { result ≡ Err TextRefusal.NoMemory → is_skipped line.now ≡ false }
    {
        if is_blank_or_comment(line) {
            return Ok(());
        }
        match &mut self.lines {
            Some(lines) => Self::take_log_line(self.alloc, lines, number, line),
            None => self.add_head(number, line),
        }
    }

    /// The journal, behind so many lines.
    fn into_journal(self, count: u64) -> Result<Journal, TextRefusal>
        requires { count + 1 < 2 ^ 64 }
        ensures ok { IfOk result (λ journal. whole self.entry self.entry.lines ≡ Ok journal) }
        ensures bad { IfErr result (Refuses (at_line (count + 1) (whole self.entry self.entry.lines))) }
        ensures read { IfOk result (λ journal. AllByRecursion InputIsRead journal.inputs) }
        ensures wants { result ≡ Err TextRefusal.NoMemory → IsSome self.entry.lines }
    {
        let Reading {
            alloc,
            images,
            inputs,
            lines,
        } = self;
        let Some(lines) = lines else {
            return Err(bad(count + 1, TextFault::Form));
        };
        Ok(Journal {
            images: images_from(alloc, images.into_vec())?,
            inputs,
            lines,
        })
    }
}

/// The journal that the file's lines say. The first bad line refuses the file, with what is wrong with it: `Form` where it
/// says nothing, or where `log` is missing, then at the line behind the last one; `Late` where an image stands behind an
/// input, or an image or an input behind `log`; `Repeat` where an image has the name of an earlier one.
#[tactic(auto, using(crate::proofs::Reaching::reached_first, crate::proofs::Reaching::bad_refuses, crate::proofs::Reaching::missing_refuses, crate::proofs::Reaching::whole_reads))]
pub fn read_journal(alloc: Global, file: &[u8]) -> Result<Journal, TextRefusal>
    ensures ok { IfOk result (λ journal. journal_of file.now ≡ Ok journal) }
    ensures bad { IfErr result (Refuses (journal_of file.now)) }
    ensures read { IfOk result (λ journal. AllByRecursion InputIsRead journal.inputs) }
    ensures wants { result ≡ Err TextRefusal.NoMemory → JournalWantsMemory file.now }
{
    let mut reading = Reading::new(alloc);
    let mut rest = file;
    let mut number = 0u64;
    while !rest.is_empty() {
        let (line, after) = cut_line(rest);
        number += 1;
        reading.take_line(number, line)?;
        rest = after;
    }
    reading.into_journal(number)
}
