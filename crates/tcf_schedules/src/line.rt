//! What one line of a schedule says.
ghost use Rattle.std.specs.Prelude.{◌≡◌, option_map};
ghost use Rattle.tcf_values.specs.Number.{number_of};
ghost use Rattle.line_words.specs.Words.{both, word_of};
ghost use Rattle.tcf_schedules.specs.Reading.{numeral_of, direction_of, command_of, sending_of, sending, delivery_of, delivering, turning_of, turning, cutting_of, cutting, asking_of, asking, imaging_of, imaging, chaining_of, chaining, plain_behind, plain_of, repetition_of, repeating, step_behind, value_behind, value_of};
ghost use Rattle.tcf_schedules.specs.Said.{command_said, plain_said, step_said, image_said, head_said, said};

use crate::image::ImageSays;
use crate::words::{
    cached_word, chain_word, close_word, cut_word, deliver_word, good_name, hex_digits, image_word,
    is_up, numeral, open_word, rounds_word, send_word, thread_id, tick_word, times_word, turn_word,
};
use cached_lines::{CachedSays, cached_says};
use line_words::{are_words, first_word, good_word};
use tcf_values::{ContextId, number_within};

/// The most value-adds of a chain.
const MOST_ADDS: u32 = 16;

/// The most rounds, or repetitions, of one line.
const MOST_TIMES: u32 = 10_000;

/// The most bytes of one piece.
const LONGEST_PIECE: u32 = 65_536;

/// A command behind its service: its name, and the text of the words that say its parts, where it has some.
#[derive(Clone, Copy)]
pub(crate) struct CommandSays<'a> {
    pub(crate) name: &'a [u8],
    pub(crate) args: Option<&'a [u8]>,
}

/// A step that can be repeated, by the name of its chain: `open NAME`, `send NAME SERVICE COMMAND ARG ..`,
/// `deliver NAME HOP up|down COUNT`, `turn NAME NODE up|down`, `tick THREAD`, `close NAME`, `cut NAME HOP` and
/// `cached NAME KIND ..`. Hops and nodes are given by their digits.
#[derive(Drop)]
pub(crate) enum PlainSays<'a> {
    Opens(&'a [u8]),
    Sends {
        name: &'a [u8],
        service: &'a [u8],
        command: CommandSays<'a>,
    },
    Delivers {
        name: &'a [u8],
        hop: &'a [u8],
        up: bool,
        count: u32,
    },
    Turns {
        name: &'a [u8],
        node: &'a [u8],
        up: bool,
    },
    Ticks(ContextId),
    Closes(&'a [u8]),
    Cuts {
        name: &'a [u8],
        hop: &'a [u8],
    },
    Asks {
        name: &'a [u8],
        what: CachedSays<'a>,
    },
}

/// A step, `rounds N`, or `times N STEP`.
#[derive(Drop)]
pub(crate) enum StepSays<'a> {
    Once(PlainSays<'a>),
    Rounds(u32),
    Times(u32, PlainSays<'a>),
}

/// A line of the header: `image NAME HEX`, or `chain NAME N`.
#[derive(Drop)]
pub(crate) enum HeadSays<'a> {
    Image(ImageSays<'a>),
    Chain { name: &'a [u8], adds: u32 },
}

#[derive(Drop)]
pub(crate) enum LineSays<'a> {
    Head(HeadSays<'a>),
    Step(StepSays<'a>),
}

/// The name of a command, and the words behind it.
#[tactic(auto, unfolding(crate::specs::Reading::command_of), using(line_words::proofs::Cuts::words_cut, line_words::proofs::Cuts::words_last))]
fn command_in(text: &[u8]) -> Option<CommandSays<'_>>
    ensures { option_map command_said result ≡ command_of text.now }
{
    if !are_words(text) {
        return None;
    }
    match first_word(text) {
        Some((name, args)) => Some(CommandSays {
            name,
            args: Some(args),
        }),
        None => Some(CommandSays {
            name: text,
            args: None,
        }),
    }
}

/// The command behind its service.
pub(crate) fn service_in(text: &[u8]) -> Option<(&[u8], CommandSays<'_>)>
    ensures { option_map (λ parts. (parts.0.now, command_said parts.1)) result ≡ both word_of command_of text.now }
{
    let (service, rest) = first_word(text)?;
    Some((good_word(service)?, command_in(rest)?))
}

fn sending_in(text: &[u8]) -> Option<PlainSays<'_>>
    ensures { option_map plain_said result ≡ option_map sending (sending_of text.now) }
{
    let (name, rest) = first_word(text)?;
    let name = good_name(name)?;
    let (service, command) = service_in(rest)?;
    Some(PlainSays::Sends {
        name,
        service,
        command,
    })
}

/// The direction, and how many bytes.
fn amount_in(text: &[u8]) -> Option<(bool, u32)>
    ensures { result ≡ both direction_of (number_of 1 65536) text.now }
{
    let (direction, count) = first_word(text)?;
    Some((is_up(direction)?, number_within(count, 1, LONGEST_PIECE)?))
}

/// The hop, the direction, and how many bytes.
fn arrival_in(text: &[u8]) -> Option<(&[u8], bool, u32)>
    ensures { option_map (λ parts. (parts.0.now, (parts.1, parts.2))) result ≡ both numeral_of (both direction_of (number_of 1 65536)) text.now }
{
    let (hop, rest) = first_word(text)?;
    let hop = numeral(hop)?;
    let (up, count) = amount_in(rest)?;
    Some((hop, up, count))
}

fn delivery_in(text: &[u8]) -> Option<PlainSays<'_>>
    ensures { option_map plain_said result ≡ option_map delivering (delivery_of text.now) }
{
    let (name, rest) = first_word(text)?;
    let name = good_name(name)?;
    let (hop, up, count) = arrival_in(rest)?;
    Some(PlainSays::Delivers {
        name,
        hop,
        up,
        count,
    })
}

/// The node, and the direction.
fn way_in(text: &[u8]) -> Option<(&[u8], bool)>
    ensures { option_map (λ parts. (parts.0.now, parts.1)) result ≡ both numeral_of direction_of text.now }
{
    let (node, direction) = first_word(text)?;
    Some((numeral(node)?, is_up(direction)?))
}

fn turning_in(text: &[u8]) -> Option<PlainSays<'_>>
    ensures { option_map plain_said result ≡ option_map turning (turning_of text.now) }
{
    let (name, rest) = first_word(text)?;
    let name = good_name(name)?;
    let (node, up) = way_in(rest)?;
    Some(PlainSays::Turns { name, node, up })
}

fn cutting_in(text: &[u8]) -> Option<PlainSays<'_>>
    ensures { option_map plain_said result ≡ option_map cutting (cutting_of text.now) }
{
    let (name, hop) = first_word(text)?;
    Some(PlainSays::Cuts {
        name: good_name(name)?,
        hop: numeral(hop)?,
    })
}

/// The name of a chain before what is asked of its client's cache.
fn asking_in(text: &[u8]) -> Option<PlainSays<'_>>
    ensures { option_map plain_said result ≡ option_map asking (asking_of text.now) }
{
    let (name, rest) = first_word(text)?;
    Some(PlainSays::Asks {
        name: good_name(name)?,
        what: cached_says(rest)?,
    })
}

/// The step of a text with this first word, but for rounds and repetitions.
#[tactic(auto, unfolding(crate::specs::Reading::plain_behind))]
fn plain_says<'a>(word: &[u8], rest: &'a [u8]) -> Option<PlainSays<'a>>
    ensures { option_map plain_said result ≡ plain_behind word.now rest.now }
{
    if word == open_word() {
        Some(PlainSays::Opens(good_name(rest)?))
    } else if word == send_word() {
        sending_in(rest)
    } else if word == deliver_word() {
        delivery_in(rest)
    } else if word == turn_word() {
        turning_in(rest)
    } else if word == tick_word() {
        Some(PlainSays::Ticks(thread_id(rest)?))
    } else if word == close_word() {
        Some(PlainSays::Closes(good_name(rest)?))
    } else if word == cut_word() {
        cutting_in(rest)
    } else if word == cached_word() {
        asking_in(rest)
    } else {
        None
    }
}

fn plain_in(text: &[u8]) -> Option<PlainSays<'_>>
    ensures { option_map plain_said result ≡ plain_of text.now }
{
    let (word, rest) = first_word(text)?;
    plain_says(word, rest)
}

fn times_in(text: &[u8]) -> Option<StepSays<'_>>
    ensures { option_map step_said result ≡ option_map repeating (repetition_of text.now) }
{
    let (count, rest) = first_word(text)?;
    let count = number_within(count, 1, MOST_TIMES)?;
    Some(StepSays::Times(count, plain_in(rest)?))
}

/// The step of a line with this first word.
#[tactic(auto, unfolding(crate::specs::Reading::step_behind))]
fn step_says<'a>(word: &[u8], rest: &'a [u8]) -> Option<StepSays<'a>>
    ensures { option_map step_said result ≡ step_behind word.now rest.now }
{
    if word == rounds_word() {
        Some(StepSays::Rounds(number_within(rest, 1, MOST_TIMES)?))
    } else if word == times_word() {
        times_in(rest)
    } else {
        Some(StepSays::Once(plain_says(word, rest)?))
    }
}

/// The name of an image before the digits of its bytes, `NAME HEX`: behind the word `image` of its line. NAME is 1 to 16
/// letters and digits of ASCII, HEX an even number of lower-case hexadecimal digits, or `-` for no byte. It takes no
/// memory.
pub fn image_in(text: &[u8]) -> Option<ImageSays<'_>>
    ensures { option_map image_said result ≡ option_map imaging (imaging_of text.now) }
{
    let (name, digits) = first_word(text)?;
    Some(ImageSays {
        name: good_name(name)?,
        digits: hex_digits(digits)?,
    })
}

/// The name of a chain before the number of its value-adds.
fn chain_in(text: &[u8]) -> Option<HeadSays<'_>>
    ensures { option_map head_said result ≡ option_map chaining (chaining_of text.now) }
{
    let (name, adds) = first_word(text)?;
    Some(HeadSays::Chain {
        name: good_name(name)?,
        adds: number_within(adds, 0, MOST_ADDS)?,
    })
}

/// What a line with this first word says.
#[tactic(auto, unfolding(crate::specs::Reading::value_behind))]
fn says<'a>(word: &[u8], rest: &'a [u8]) -> Option<LineSays<'a>>
    ensures { option_map said result ≡ value_behind word.now rest.now }
{
    if word == image_word() {
        Some(LineSays::Head(HeadSays::Image(image_in(rest)?)))
    } else if word == chain_word() {
        Some(LineSays::Head(chain_in(rest)?))
    } else {
        Some(LineSays::Step(step_says(word, rest)?))
    }
}

/// What the line says, if it has the form of one.
pub(crate) fn line_says(line: &[u8]) -> Option<LineSays<'_>>
    ensures { option_map said result ≡ value_of line.now }
{
    let (word, rest) = first_word(line)?;
    says(word, rest)
}
