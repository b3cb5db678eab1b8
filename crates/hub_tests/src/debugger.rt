//! A debugger behind a hub, which learns from what its channel is told.
use cache_learning::{hear_event, hear_final};
use channel_core::Outgoing;
use hub_node::{HubNode, HubSide};
use knowledge::{Knowledge, StateFact};
use std::alloc::{AllocError, Global};
use tcf_message::{Message, read};

/// The Hello of a debugger, which has no service.
pub const HELLO: &[u8] = b"E\0Locator\0Hello\0[]\0\x03\x01";

/// The end of its stream.
pub const END: &[u8] = b"\x03\x02";

/// The commands of the tests, each under a token of its own: a process is started, it is asked whether its thread runs, the
/// thread goes on, and the process is asked for.
pub const START: &[u8] =
    b"C\x001\x00Processes\x00start\x00\"\"\x00\"a\"\x00[]\x00[]\x00true\x00\x03\x01";

pub const GET_STATE: &[u8] = b"C\x002\x00RunControl\x00getState\x00\"P1.1\"\x00\x03\x01";

pub const RESUME: &[u8] = b"C\x003\x00RunControl\x00resume\x00\"P1.1\"\x000\x001\x00\x03\x01";

pub const GET_CONTEXT: &[u8] = b"C\x004\x00RunControl\x00getContext\x00\"P1\"\x00\x03\x01";

/// The data of the command that a token names.
fn asked(token: &[u8]) -> Option<(&'static [u8], &'static [u8], &'static [u8])> {
    if token == b"1".as_slice() {
        return Some((b"Processes", b"start", b"\"\"\0\"a\"\0[]\0[]\0true\0"));
    }
    if token == b"2".as_slice() {
        return Some((b"RunControl", b"getState", b"\"P1.1\"\0"));
    }
    if token == b"3".as_slice() {
        return Some((b"RunControl", b"resume", b"\"P1.1\"\x000\x001\x00"));
    }
    if token == b"4".as_slice() {
        return Some((b"RunControl", b"getContext", b"\"P1\"\0"));
    }
    None
}

/// A debugger: the number of its channel, what it knows, how many answers it got, and the last mark that it saw.
#[derive(Drop)]
pub struct Debugger {
    alloc: Global,
    pub number: u64,
    pub cache: Knowledge,
    pub answers: u32,
    pub mark: Option<u64>,
}

impl Debugger {
    pub fn new(alloc: Global, number: u64) -> Result<Debugger, AllocError> {
        Ok(Debugger {
            alloc,
            number,
            cache: Knowledge::new(alloc)?,
            answers: 0,
            mark: None,
        })
    }

    /// Hears all that a hub has to send to it.
    pub fn hear_all(&mut self, hub: &mut HubNode) -> Result<(), AllocError> {
        for _ in 0..100 {
            match hub.take_out(HubSide::Below(self.number)) {
                Some(out) => self.hear(&out)?,
                None => return Ok(()),
            }
        }
        Ok(())
    }

    /// Hears one message, whose bytes end with two that end it.
    pub fn hear(&mut self, out: &Outgoing) -> Result<(), AllocError> {
        let bytes = out.bytes.as_slice();
        if bytes.len() < 2 {
            return Ok(());
        }
        if out.mark.is_some() {
            self.mark = out.mark;
        }
        self.learn(&bytes[..bytes.len() - 2])
    }

    fn learn(&mut self, raw: &[u8]) -> Result<(), AllocError> {
        match read(raw) {
            Ok(
                Message::Event {
                    service,
                    name,
                    body,
                },
            ) => hear_event(self.alloc, &mut self.cache, service, name, body),
            Ok(Message::Result { token, body }) => self.learn_answer(token, body),
            _ => Ok(()),
        }
    }

    fn learn_answer(&mut self, token: &[u8], body: &[u8]) -> Result<(), AllocError> {
        self.answers = self.answers.saturating_add(1);
        match asked(token) {
            Some((service, name, data)) => hear_final(
                self.alloc,
                &mut self.cache,
                service,
                name,
                data,
                body,
            ),
            None => Ok(()),
        }
    }

    /// What it knows of the thread, in a word.
    pub fn state(&self) -> &'static str {
        match self.cache.state(b"P1.1") {
            Some(StateFact::Running) => "runs",
            Some(StateFact::Suspended { .. }) => "stands",
            None => "unknown",
        }
    }

    /// Whether it knows the process.
    pub fn knows_process(&self) -> bool {
        self.cache.context(b"P1").is_some()
    }
}
