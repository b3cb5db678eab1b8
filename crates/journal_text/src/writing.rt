//! How a journal is written.
#![tactic(auto, using(tcf_text::proofs::Growth::grows_later))]

ghost use Rattle.std.specs.Prelude.{◌≡◌, ◌++◌, ◌∷◌, decimal, flat_map, OnOk, OnErr};
ghost use Rattle.std.specs.List.{AllByRecursion};
ghost use Rattle.command_tables.specs.Reading.{IsReading};
ghost use Rattle.tcf_text.specs.Log.{Grows, named_text, numbered};
ghost use Rattle.tcf_text.specs.Said.{IsByte};
ghost use Rattle.tcf_values.specs.Spelling.{context_spelling};
ghost use Rattle.journal_text.specs.Inputs.{InputIsRead, known_word};
ghost use Rattle.journal_text.specs.Written.{IsInputBack, IsReadBack, executed_text, hex_text, image_text, input_text, input_words, journal_text, names_text};

use command_tables::{Reading, readings_are_legal, write_command};
use itoa::Buffer;
use std::alloc::{AllocError, Global};
use target_contexts::Image;
use target_hub::Input;
use tcf_outside::Octets;
use tcf_text::{LogLine, Showing, show_named, show_number, show_word, write_lines};
use tcf_values::{Command, ContextId};

/// Appends the digits of some bytes.
fn show_hex(alloc: Global, bytes: &[u8], out: &mut Octets) -> Result<(), AllocError>
    ensures shown { OnOk result (out.new ≡ out.old ++ hex_text bytes.now) }
    ensures part { OnErr result (Grows out.old out.new) }
{
    if bytes.is_empty() {
        return out.push(b'-');
    }
    let digits = hex::encode(alloc, bytes)?;
    out.extend(digits.as_bytes())
}

/// Appends an image's line.
#[tactic(auto, using(tcf_text::proofs::Growth::grows_later), unfolding(tcf_schedules::specs::Line::image_word))]
fn show_image(alloc: Global, image: &Image, out: &mut Octets) -> Result<(), AllocError>
    ensures shown { OnOk result (out.new ≡ out.old ++ image_text image.now) }
    ensures part { OnErr result (Grows out.old out.new) }
{
    out.extend(b"image ")?;
    out.extend(image.name.as_bytes())?;
    out.push(b' ')?;
    show_hex(alloc, image.bytes.as_slice(), out)?;
    out.push(b'\n')
}

/// Appends a line's word and the number of a channel.
fn show_channel(word: &[u8], channel: u64, out: &mut Octets) -> Result<(), AllocError>
    ensures shown { OnOk result (out.new ≡ out.old ++ numbered word.now channel) }
    ensures part { OnErr result (Grows out.old out.new) }
{
    out.extend(word)?;
    show_number(channel, out)
}

/// Appends the service and the name of a command.
fn show_names(service: &[u8], name: &[u8], out: &mut Octets) -> Result<(), AllocError>
    ensures shown { OnOk result (out.new ≡ out.old ++ names_text service.now name.now) }
    ensures part { OnErr result (Grows out.old out.new) }
{
    show_word(Showing::Readable, service, out)?;
    show_word(Showing::Readable, name, out)
}

/// Appends a command that was read, with this data.
#[tactic(auto, using(tcf_text::proofs::Growth::grows_later), unfolding(crate::specs::Inputs::known_word))]
fn show_command(
    channel: u64,
    service: &[u8],
    name: &[u8],
    body: &[u8],
    out: &mut Octets,
) -> Result<(), AllocError>
    ensures shown { OnOk result (out.new ≡ out.old ++ (numbered known_word channel ++ named_text Showing.Readable service.now name.now body.now)) }
    ensures part { OnErr result (Grows out.old out.new) }
    ensures bytes { OnOk result (AllByRecursion IsByte body.now) }
{
    show_channel(b"known", channel, out)?;
    show_named(Showing::Readable, service, name, body, out)
}

/// Appends a command that was read, with its canonical data.
fn show_known(
    alloc: Global,
    channel: u64,
    command: &Command,
    service: &[u8],
    name: &[u8],
    out: &mut Octets,
) -> Result<(), AllocError>
    requires { IsReading service.now name.now (Reading.Known command.now) }
    ensures shown { OnOk result (out.new ≡ out.old ++ executed_text channel (Reading.Known command.now) service.now name.now) }
    ensures part { OnErr result (Grows out.old out.new) }
    ensures reads_back { OnOk result (IsInputBack (Input.Executed channel (Reading.Known command.now) service.now name.now)) }
{
    // A command that some data is read as can be written.
    readings_are_legal();
    let written = write_command(alloc, command)?;
    show_command(channel, service, name, written.body.as_slice(), out)
}

/// Appends a command that the tables don't have.
#[tactic(auto, using(tcf_text::proofs::Growth::grows_later), unfolding(crate::specs::Inputs::unknown_word))]
fn show_unknown(
    channel: u64,
    service: &[u8],
    name: &[u8],
    out: &mut Octets,
) -> Result<(), AllocError>
    ensures shown { OnOk result (out.new ≡ out.old ++ executed_text channel Reading.Unknown service.now name.now) }
    ensures part { OnErr result (Grows out.old out.new) }
{
    show_channel(b"unknown", channel, out)?;
    show_names(service, name, out)
}

/// Appends a command of which this argument couldn't be read.
#[tactic(auto, using(tcf_text::proofs::Growth::grows_later), unfolding(crate::specs::Inputs::bad_word))]
fn show_bad(
    channel: u64,
    index: usize,
    code: u8,
    service: &[u8],
    name: &[u8],
    out: &mut Octets,
) -> Result<(), AllocError>
    ensures shown { OnOk result (out.new ≡ out.old ++ executed_text channel (Reading.Bad index code) service.now name.now) }
    ensures part { OnErr result (Grows out.old out.new) }
{
    show_channel(b"bad", channel, out)?;
    show_number(index as u64, out)?;
    show_number(u64::from(code), out)?;
    show_names(service, name, out)
}

/// Appends what a channel executed.
fn show_executed(
    alloc: Global,
    channel: u64,
    reading: &Reading,
    service: &[u8],
    name: &[u8],
    out: &mut Octets,
) -> Result<(), AllocError>
    requires { IsReading service.now name.now reading.now }
    ensures shown { OnOk result (out.new ≡ out.old ++ executed_text channel reading.now service.now name.now) }
    ensures part { OnErr result (Grows out.old out.new) }
    ensures reads_back { OnOk result (IsInputBack (Input.Executed channel reading.now service.now name.now)) }
{
    match reading {
        Reading::Known(command) => show_known(alloc, channel, command, service, name, out),
        Reading::Unknown => show_unknown(channel, service, name, out),
        Reading::Bad { index, code } => show_bad(channel, *index, *code, service, name, out),
    }
}

/// Appends the ID of a thread.
fn show_thread(thread: ContextId, out: &mut Octets) -> Result<(), AllocError>
    ensures shown { OnOk result (out.new ≡ out.old ++ context_spelling thread) }
    ensures part { OnErr result (Grows out.old out.new) }
{
    match thread {
        ContextId::Process(process) => {
            out.push(b'P')?;
            out.extend(Buffer::new().format(process).as_bytes())
        }
        ContextId::Thread(process, thread) => {
            out.push(b'P')?;
            out.extend(Buffer::new().format(process).as_bytes())?;
            out.push(b'.')?;
            out.extend(Buffer::new().format(thread).as_bytes())
        }
    }
}

/// Appends an input without the byte that ends its line.
#[tactic(auto, using(tcf_text::proofs::Growth::grows_later), unfolding(crate::specs::Inputs::opened_word, crate::specs::Inputs::ticked_word, crate::specs::Inputs::closed_word))]
fn show_input(alloc: Global, input: &Input, out: &mut Octets) -> Result<(), AllocError>
    requires { InputIsRead input.now }
    ensures shown { OnOk result (out.new ≡ out.old ++ input_words input.now) }
    ensures part { OnErr result (Grows out.old out.new) }
    ensures reads_back { OnOk result (IsInputBack input.now) }
{
    match input {
        Input::Opened(channel) => show_channel(b"opened", *channel, out),
        Input::Executed(channel, reading, service, name) => show_executed(
            alloc,
            *channel,
            reading,
            service.as_slice(),
            name.as_slice(),
            out,
        ),
        Input::Ticked(thread) => {
            out.extend(b"ticked ")?;
            show_thread(*thread, out)
        }
        Input::Closed(channel) => show_channel(b"closed", *channel, out),
    }
}

/// Appends the images' lines.
fn show_images(alloc: Global, images: &[Image], out: &mut Octets) -> Result<(), AllocError>
    ensures shown { OnOk result (out.new ≡ out.old ++ flat_map image_text images.now) }
    ensures part { OnErr result (Grows out.old out.new) }
{
    for image in images {
        show_image(alloc, image, out)?;
    }
    Ok(())
}

/// Appends the inputs' lines.
fn show_inputs(alloc: Global, inputs: &[Input], out: &mut Octets) -> Result<(), AllocError>
    requires { AllByRecursion InputIsRead inputs.now }
    ensures shown { OnOk result (out.new ≡ out.old ++ flat_map input_text inputs.now) }
    ensures part { OnErr result (Grows out.old out.new) }
    ensures reads_back { OnOk result (AllByRecursion IsInputBack inputs.now) }
{
    for input in inputs {
        show_input(alloc, input, out)?;
        out.push(b'\n')?;
    }
    Ok(())
}

/// Appends the journal's text.
#[tactic(auto, using(tcf_text::proofs::Growth::grows_later), unfolding(crate::specs::Journal::log_word))]
fn push_journal(
    alloc: Global,
    images: &[Image],
    inputs: &[Input],
    lines: &[LogLine],
    out: &mut Octets,
) -> Result<(), AllocError>
    requires { AllByRecursion InputIsRead inputs.now }
    ensures shown { OnOk result (out.new ≡ out.old ++ journal_text images.now inputs.now lines.now) }
    ensures part { OnErr result (Grows out.old out.new) }
    ensures reads_back { OnOk result (IsReadBack images.now inputs.now lines.now) }
{
    show_images(alloc, images, out)?;
    show_inputs(alloc, inputs, out)?;
    out.extend(b"log\n")?;
    write_lines(Showing::Readable, lines, out)
}

/// Appends the text of a journal: a line for each image, one for each input, the line `log`, and one for each line of the
/// log. What is executed has to be a reading of its names. What is written is read back, where numbers fit in 64 bits,
/// names are such as a schedule's images have, and no word has a zero byte. Where memory runs out nothing is appended.
#[tactic(auto, using(tcf_text::proofs::Growth::taken_back))]
pub fn write_journal(
    alloc: Global,
    images: &[Image],
    inputs: &[Input],
    lines: &[LogLine],
    out: &mut Octets,
) -> Result<(), AllocError>
    requires { AllByRecursion InputIsRead inputs.now }
    ensures ok { OnOk result (out.new ≡ out.old ++ journal_text images.now inputs.now lines.now) }
    ensures err { OnErr result (out.new ≡ out.old) }
    ensures reads_back { OnOk result (IsReadBack images.now inputs.now lines.now) }
{
    let length = out.len();
    if let Err(error) = push_journal(alloc, images, inputs, lines, out) {
        out.truncate(length);
        return Err(error);
    }
    Ok(())
}
