//! The rows of a target that several channels share.
ghost use Rattle.std.specs.Prelude.{IfOk};
ghost use Rattle.command_tables.specs.Reading.{IsReading};
ghost use Rattle.target_hub.specs.Limits.{AreEvents};

use crate::rows::Board;
use crate::tables::{put_text, put_told, read};
use crate::words::{Named, first, number};
use anyhow::{Context, Result};
use command_tables::Reading;
use std::alloc::{AllocError, Global};
use target_hub::{Answered, Done, Events, Hub, Image};
use tcf_message::Message;
use tcf_outside::Octets;
use tcf_text::show_line;
use tcf_values::{Bytes, ContextId, Text, context_id};

/// The bytes of `HEX` or `HEX*N`.
fn image_bytes(alloc: Global, code: &str) -> Result<Bytes> {
    let (code, count) = code.split_once('*').unwrap_or((code, "1"));
    let part = hex::decode(alloc, code)?;
    let mut bytes = Vec::new(alloc);
    for _ in 0..number(count)? {
        bytes.extend_from_slice(part.as_slice())?;
    }
    Ok(Bytes::from_vec(bytes))
}

fn image(alloc: Global, word: &str) -> Result<Image> {
    let (name, code) = word.split_once('=').context("no image")?;
    Ok(Image {
        name: Text::from_str(alloc, name)?,
        bytes: image_bytes(alloc, code)?,
    })
}

/// A target with these images.
fn hub(alloc: Global, words: &str) -> Result<Hub> {
    let mut images = Vec::new(alloc);
    for word in words.split_whitespace() {
        images.push(image(alloc, word)?)?;
    }
    Ok(Hub::new(alloc, images)?)
}

fn put_events(alloc: Global, events: &Events, out: &mut Octets) -> Result<()>
    requires { AreEvents events.now }
{
    for event in events {
        put_told(alloc, event, out)?;
    }
    Ok(())
}

fn put_progress(alloc: Global, channel: &[u8], address: u32, out: &mut Octets) -> Result<()> {
    let mut data = Octets::new(alloc);
    data.extend(format!(in alloc; "{address}\0")?.as_bytes())?;
    let message = Message::Progress {
        token: channel,
        body: data.as_slice(),
    };
    show_line(&message, out)?;
    Ok(())
}

fn put_answer(channel: &[u8], answer: &Answered, out: &mut Octets) -> Result<()> {
    let message = match answer {
        Answered::Unknown => Message::NotKnown { token: channel },
        Answered::Result(data) => Message::Result {
            token: channel,
            body: data.as_slice(),
        },
    };
    show_line(&message, out)?;
    Ok(())
}

/// Puts the events, and the progress and the answer under the channel's number.
fn put_done(alloc: Global, channel: &[u8], done: &Done, out: &mut Octets) -> Result<()>
    requires { AreEvents done.now.events }
{
    put_events(alloc, &done.events, out)?;
    for address in &done.progress {
        put_progress(alloc, channel, *address, out)?;
    }
    put_answer(channel, &done.answer, out)
}

/// What a channel's command comes to.
fn done_of(
    hub: &mut Hub,
    channel: u64,
    named: &Named,
    reading: &Reading,
) -> Result<Done, AllocError>
    requires { IsReading named.now.service.items named.now.name.items reading.now }
    ensures { IfOk result (λ done. AreEvents done.events) }
{
    hub.execute(
        channel,
        named.service.as_slice(),
        named.name.as_slice(),
        reading,
    )
}

/// Puts what a channel's command comes to.
fn put_execution(
    alloc: Global,
    hub: &mut Hub,
    channel: &str,
    named: &Named,
    reading: &Reading,
    out: &mut Octets,
) -> Result<()>
    requires { IsReading named.now.service.items named.now.name.items reading.now }
{
    let done = done_of(hub, number(channel)?, named, reading)?;
    put_done(alloc, channel.as_bytes(), &done, out)
}

/// Executes a channel's command.
fn execute(alloc: Global, hub: &mut Hub, words: &str, out: &mut Octets) -> Result<()> {
    let (channel, words) = first(words);
    let named = Named::read(alloc, words)?;
    let reading = read(alloc, &named)?;
    put_execution(alloc, hub, channel, &named, &reading, out)
}

/// Executes an instruction of a thread.
fn tick(alloc: Global, hub: &mut Hub, word: &str, out: &mut Octets) -> Result<()> {
    let thread = context_id(word.as_bytes()).context("no thread")?;
    match hub.tick(thread)? {
        Some(events) => put_events(alloc, &events, out),
        None => put_text("idle", out),
    }
}

/// Lets a channel go.
fn close(alloc: Global, hub: &mut Hub, word: &str, out: &mut Octets) -> Result<()> {
    let events = hub.close(number(word)?)?;
    put_events(alloc, &events, out)
}

/// Puts the threads that run.
fn put_running(alloc: Global, hub: &Hub, out: &mut Octets) -> Result<()> {
    for thread in &hub.running()? {
        if let ContextId::Thread(process, thread) = thread {
            put_text(format!(in alloc; "P{process}.{thread}")?.as_str(), out)?;
        }
    }
    Ok(())
}

/// A target, at first without images.
#[derive(Drop)]
pub struct Target {
    alloc: Global,
    hub: Hub,
}

impl Target {
    pub fn new(alloc: Global) -> Result<Target> {
        Ok(Target {
            alloc,
            hub: hub(alloc, "")?,
        })
    }

    fn restart(&mut self, words: &str) -> Result<()> {
        self.hub = hub(self.alloc, words)?;
        Ok(())
    }
}

impl Board for Target {
    fn play(&mut self, row: &str, out: &mut Octets) -> Result<()> {
        let (kind, words) = first(row);
        match kind {
            "target" => self.restart(words),
            "exec" => execute(self.alloc, &mut self.hub, words, out),
            "tick" => tick(self.alloc, &mut self.hub, words, out),
            "close" => close(self.alloc, &mut self.hub, words, out),
            "running" => put_running(self.alloc, &self.hub, out),
            _ => put_text("no row", out),
        }
    }
}
