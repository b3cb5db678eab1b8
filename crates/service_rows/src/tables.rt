//! The rows of one command, answer or event, read by the tables.
ghost use Rattle.std.specs.Prelude.{IfOk};
ghost use Rattle.command_tables.specs.Canonical.{IsReadable};
ghost use Rattle.command_tables.specs.Reading.{IsReading};
ghost use Rattle.reply_tables.specs.Events.{IsEvent};
ghost use Rattle.reply_tables.specs.Limits.{IsAnswerTo};
ghost use Rattle.tcf_values.specs.Spelling.{IsContext, IsRegister};

use crate::parts::put_part;
use crate::rows::Board;
use crate::words::{Named, bytes, data, first, number, two};
use anyhow::Result;
use command_tables::{Reading, read_command, write_command};
use reply_tables::{ReadAnswer, ReadEvent, read_answer, read_event, write_answer, write_event};
use std::alloc::Global;
use tcf_message::Message;
use tcf_outside::Octets;
use tcf_text::show_line;
use tcf_values::{
    Answer, Command, ContextId, EventData, RegisterId, context_id, context_text, format_of_code,
    is_changing, is_storable, register_id, register_text,
};

/// Puts a line.
pub fn put_text(text: &str, out: &mut Octets) -> Result<()> {
    out.extend(text.as_bytes())?;
    out.push(b'\n')?;
    Ok(())
}

/// What the data of a command is read as.
pub fn read(alloc: Global, named: &Named) -> Result<Reading>
    ensures { IfOk result (IsReading named.now.service.items named.now.name.items) }
{
    Ok(read_command(
        alloc,
        named.service.as_slice(),
        named.name.as_slice(),
        named.data.as_slice(),
    )?)
}

/// Puts a command as it is written.
fn put_written(alloc: Global, command: &Command, out: &mut Octets) -> Result<()>
    requires { IsReadable command.now }
{
    let written = write_command(alloc, command)?;
    let message = Message::Command {
        token: b"",
        service: written.service.as_bytes(),
        name: written.name.as_bytes(),
        body: written.body.as_slice(),
    };
    show_line(&message, out)?;
    Ok(())
}

/// Puts what a command is read as.
fn put_command(alloc: Global, named: &Named, reading: &Reading, out: &mut Octets) -> Result<()>
    requires { IsReading named.now.service.items named.now.name.items reading.now }
{
    match reading {
        Reading::Known(command) => put_written(alloc, command, out),
        Reading::Unknown => put_text("unknown", out),
        Reading::Bad { index, code } => {
            put_text(format!(in alloc; "bad {index} {code}")?.as_str(), out)
        }
    }
}

fn class_of(command: &Command) -> &'static str {
    if is_changing(command) {
        "changing"
    } else if is_storable(command) {
        "storable"
    } else {
        "neither"
    }
}

/// Puts whether a command is changing, storable or neither.
fn put_class(reading: &Reading, out: &mut Octets) -> Result<()> {
    match reading {
        Reading::Known(command) => put_text(class_of(command), out),
        Reading::Unknown | Reading::Bad { .. } => put_text("no command", out),
    }
}

/// Puts a word and an answer.
pub fn put_answered(word: &str, data: &[u8], out: &mut Octets) -> Result<()> {
    out.extend(word.as_bytes())?;
    let message = Message::Result {
        token: b"",
        body: data,
    };
    show_line(&message, out)?;
    Ok(())
}

/// Puts an answer as it is written.
fn put_known(alloc: Global, command: &Command, answer: &Answer, out: &mut Octets) -> Result<()>
    requires { IsAnswerTo command.now answer.now }
{
    let word = match answer {
        Answer::Failed(_) => "failed ",
        _ => "",
    };
    let mut data = Octets::new(alloc);
    write_answer(alloc, command, answer, &mut data)?;
    put_answered(word, data.as_slice(), out)
}

/// Puts what data is read as, as an answer to a command.
fn put_read(alloc: Global, command: &Command, data: &[u8], out: &mut Octets) -> Result<()> {
    match read_answer(alloc, command, data)? {
        ReadAnswer::Known(answer) => put_known(alloc, command, &answer, out),
        ReadAnswer::Bad => put_text("bad", out),
    }
}

/// Puts what the data of an answer is read as.
fn put_answer(alloc: Global, reading: &Reading, answered: &str, out: &mut Octets) -> Result<()> {
    match reading {
        Reading::Known(command) => {
            put_read(alloc, command, data(alloc, answered)?.as_slice(), out)
        }
        Reading::Unknown | Reading::Bad { .. } => put_text("no command", out),
    }
}

/// Puts what a row of this kind asks of its command.
fn put_asked(
    alloc: Global,
    kind: &str,
    named: &Named,
    reading: &Reading,
    answered: &str,
    out: &mut Octets,
) -> Result<()>
    requires { IsReading named.now.service.items named.now.name.items reading.now }
{
    match kind {
        "command" => put_command(alloc, named, reading, out),
        "class" => put_class(reading, out),
        _ => put_answer(alloc, reading, answered, out),
    }
}

/// Puts what a row of a command gives.
fn put_row(alloc: Global, kind: &str, words: &str, out: &mut Octets) -> Result<()> {
    let (asked, answered) = two(words);
    let named = Named::read(alloc, asked)?;
    let reading = read(alloc, &named)?;
    put_asked(alloc, kind, &named, &reading, answered, out)
}

/// Puts an event as it is written.
pub fn put_told(alloc: Global, event: &EventData, out: &mut Octets) -> Result<()>
    requires { IsEvent event.now }
{
    let written = write_event(alloc, event)?;
    let message = Message::Event {
        service: written.service.as_bytes(),
        name: written.name.as_bytes(),
        body: written.body.as_slice(),
    };
    show_line(&message, out)?;
    Ok(())
}

/// Puts what the data of an event is read as.
pub fn put_event(alloc: Global, words: &str, out: &mut Octets) -> Result<()> {
    let named = Named::read(alloc, words)?;
    let read = read_event(
        alloc,
        named.service.as_slice(),
        named.name.as_slice(),
        named.data.as_slice(),
    )?;
    match read {
        ReadEvent::Known(event) => put_told(alloc, &event, out),
        ReadEvent::Foreign => put_text("foreign", out),
        ReadEvent::Bad => put_text("bad", out),
    }
}

fn context_line(alloc: Global, id: ContextId) -> Result<String>
    requires { IsContext id }
{
    let text = context_text(alloc, id)?;
    let text = text.as_str();
    Ok(match id {
        ContextId::Process(process) => format!(in alloc; "process {process} {text}")?,
        ContextId::Thread(process, thread) => {
            format!(in alloc; "thread {process} {thread} {text}")?
        }
    })
}

fn register_line(alloc: Global, id: RegisterId) -> Result<String>
    requires { IsRegister id }
{
    let text = register_text(alloc, id)?;
    Ok(format!(in alloc;
        "register {} {} {} {}",
        id.process,
        id.thread,
        id.index,
        text.as_str()
    )?)
}

/// Puts what a text spells, and the spelling of that.
pub fn put_id(alloc: Global, word: &str, out: &mut Octets) -> Result<()> {
    let text = bytes(alloc, word)?;
    match (context_id(text.as_slice()), register_id(text.as_slice())) {
        (Some(id), None) => put_text(context_line(alloc, id)?.as_str(), out),
        (None, Some(id)) => put_text(register_line(alloc, id)?.as_str(), out),
        (None, None) => put_text("none", out),
        (Some(_), Some(_)) => put_text("both", out),
    }
}

/// Puts the text of an error's code.
pub fn put_code(word: &str, out: &mut Octets) -> Result<()> {
    let code = u8::try_from(number(word)?)?;
    put_text(format_of_code(code).unwrap_or("none"), out)
}

/// The rows that need nothing of those before them.
#[derive(Drop)]
pub struct Tables {
    alloc: Global,
}

impl Tables {
    pub fn new(alloc: Global) -> Tables {
        Tables { alloc }
    }
}

impl Board for Tables {
    fn play(&mut self, row: &str, out: &mut Octets) -> Result<()> {
        let (kind, words) = first(row);
        match kind {
            "command" | "class" | "answer" => put_row(self.alloc, kind, words, out),
            "event" => put_event(self.alloc, words, out),
            "id" => put_id(self.alloc, words, out),
            "part" => put_part(self.alloc, words, out),
            "code" => put_code(words, out),
            _ => put_text("no row", out),
        }
    }
}
