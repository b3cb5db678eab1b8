//! The rows of what peers keep of a target.
use crate::rows::Board;
use crate::tables::{put_answered, put_text, read};
use crate::words::{Named, data, first, two};
use anyhow::{Result, ensure};
use cache_learning::{hear_event, hear_final};
use command_tables::Reading;
use json_values::{bp_value, context_value, status_value};
use knowledge::{Knowledge, StateFact};
use std::alloc::{AllocError, Global};
use tcf_outside::Octets;
use tcf_values::{Command, ContextId, context_id, register_id};
use value_store::Store;

/// The cache of a client, and that of a value-add.
#[derive(Drop)]
pub struct Caches {
    alloc: Global,
    known: Knowledge,
    store: Store,
    /// What the row asks, where it is a command.
    asked: Option<Command>,
}

fn client_hears(alloc: Global, known: &mut Knowledge, event: &Named) -> Result<(), AllocError> {
    let (service, name) = (event.service.as_slice(), event.name.as_slice());
    hear_event(alloc, known, service, name, event.data.as_slice())
}

fn value_add_hears(alloc: Global, store: &mut Store, event: &Named) -> Result<(), AllocError> {
    let (service, name) = (event.service.as_slice(), event.name.as_slice());
    store.hear_event(alloc, service, name, event.data.as_slice())
}

fn client_learns(
    alloc: Global,
    known: &mut Knowledge,
    asked: &Named,
    answer: &[u8],
) -> Result<(), AllocError> {
    let (service, name) = (asked.service.as_slice(), asked.name.as_slice());
    hear_final(alloc, known, service, name, asked.data.as_slice(), answer)
}

fn value_add_learns(
    alloc: Global,
    store: &mut Store,
    asked: &Option<Command>,
    answer: &[u8],
) -> Result<(), AllocError> {
    store.hear_answer(alloc, asked, answer)
}

fn answer_of(
    alloc: Global,
    store: &mut Store,
    asked: &Option<Command>,
) -> Result<Option<Octets>, AllocError> {
    store.answer(alloc, asked)
}

impl Caches {
    pub fn new(alloc: Global) -> Result<Caches> {
        Ok(Caches {
            alloc,
            known: Knowledge::new(alloc)?,
            store: Store::new(alloc)?,
            asked: None,
        })
    }

    fn restart(&mut self) -> Result<()> {
        self.known = Knowledge::new(self.alloc)?;
        self.store = Store::new(self.alloc)?;
        Ok(())
    }

    /// Both take an event.
    fn hear(&mut self, words: &str) -> Result<()> {
        let named = Named::read(self.alloc, words)?;
        client_hears(self.alloc, &mut self.known, &named)?;
        value_add_hears(self.alloc, &mut self.store, &named)?;
        Ok(())
    }

    /// Takes what a row asks.
    fn ask(&mut self, asked: &Named) -> Result<()> {
        self.asked = match read(self.alloc, asked)? {
            Reading::Known(command) => Some(command),
            Reading::Unknown | Reading::Bad { .. } => None,
        };
        Ok(())
    }

    /// Both take an answer to a command.
    fn learn(&mut self, words: &str) -> Result<()> {
        let (asked, answered) = two(words);
        let named = Named::read(self.alloc, asked)?;
        let answer = data(self.alloc, answered)?;
        client_learns(self.alloc, &mut self.known, &named, answer.as_slice())?;
        self.ask(&named)?;
        value_add_learns(self.alloc, &mut self.store, &self.asked, answer.as_slice())?;
        Ok(())
    }

    /// What the value-add answers of a command.
    fn reply(&mut self, words: &str) -> Result<Option<Octets>> {
        let named = Named::read(self.alloc, words)?;
        self.ask(&named)?;
        Ok(answer_of(self.alloc, &mut self.store, &self.asked)?)
    }

    /// Puts what the value-add answers of a command.
    fn put_reply(&mut self, words: &str, out: &mut Octets) -> Result<()> {
        match self.reply(words)? {
            Some(data) => put_answered("", data.as_slice(), out),
            None => put_text("none", out),
        }
    }

    /// Puts what the client's cache has.
    fn put_known(&self, words: &str, out: &mut Octets) -> Result<()> {
        let (kind, id) = first(words);
        let text = match kind {
            "context" => self.context(id)?,
            "threads" => self.threads(id)?,
            "state" => self.state(id)?,
            "register" => self.register(id)?,
            "properties" => self.properties(id)?,
            "status" => self.status(id)?,
            _ => self.bytes(id)?,
        };
        match text {
            Some(text) => put_text(text.as_str(), out),
            None => put_text("none", out),
        }
    }

    fn context(&self, id: &str) -> Result<Option<String>> {
        let Some(context) = self.known.context(id.as_bytes()) else {
            return Ok(None);
        };
        Ok(Some(context_value(self.alloc, context)?.to_string(self.alloc)?))
    }

    fn properties(&self, id: &str) -> Result<Option<String>> {
        let Some(props) = self.known.properties(id.as_bytes()) else {
            return Ok(None);
        };
        Ok(Some(bp_value(self.alloc, props)?.to_string(self.alloc)?))
    }

    fn status(&self, id: &str) -> Result<Option<String>> {
        let Some(status) = self.known.status(id.as_bytes()) else {
            return Ok(None);
        };
        Ok(Some(status_value(self.alloc, status)?.to_string(self.alloc)?))
    }

    /// The IDs of a process's threads, each behind a space.
    fn threads(&self, id: &str) -> Result<Option<String>> {
        let Some(ContextId::Process(process)) = context_id(id.as_bytes()) else {
            return Ok(None);
        };
        match self.known.threads(process) {
            Some(ids) => {
                let mut text = String::from_str(self.alloc, "threads")?;
                for thread in ids.as_slice() {
                    text.push(' ')?;
                    text.push_str(thread.as_str())?;
                }
                Ok(Some(text))
            }
            None => Ok(None),
        }
    }

    fn state(&self, id: &str) -> Result<Option<String>> {
        match self.known.state(id.as_bytes()) {
            Some(StateFact::Running) => Ok(Some(String::from_str(self.alloc, "running")?)),
            Some(StateFact::Suspended { reason, hits }) => {
                let mut text = format!(in self.alloc; "suspended {}", reason.as_str())?;
                for hit in hits.as_slice() {
                    text.push(' ')?;
                    text.push_str(hit.as_str())?;
                }
                Ok(Some(text))
            }
            None => Ok(None),
        }
    }

    fn register(&self, id: &str) -> Result<Option<String>> {
        let Some(register) = register_id(id.as_bytes()) else {
            return Ok(None);
        };
        match self.known.register(register) {
            Some(value) => Ok(Some(format!(in self.alloc; "{value}")?)),
            None => Ok(None),
        }
    }

    /// The bytes of `PROCESS ADDR SIZE`, in hexadecimal digits.
    fn bytes(&self, words: &str) -> Result<Option<String>> {
        let (id, range) = first(words);
        let (addr, size) = first(range);
        let (addr, size) = (addr.parse::<u32>()?, size.parse::<u32>()?);
        let Some(ContextId::Process(process)) = context_id(id.as_bytes()) else {
            return Ok(None);
        };
        ensure!(size != 0, "no size");
        match self.known.bytes(process, addr, size) {
            Some(bytes) => Ok(Some(hex::encode(self.alloc, bytes)?)),
            None => Ok(None),
        }
    }
}

impl Board for Caches {
    fn play(&mut self, row: &str, out: &mut Octets) -> Result<()> {
        let (kind, words) = first(row);
        match kind {
            "cache" => self.restart(),
            "hear" => self.hear(words),
            "learn" => self.learn(words),
            "known" => self.put_known(words, out),
            "reply" => self.put_reply(words, out),
            _ => put_text("no row", out),
        }
    }
}
