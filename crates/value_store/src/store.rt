//! The store of a value-add: a cache, and the last position that came from the target.
ghost use Rattle.std.specs.Prelude.{◌≡◌, ◌≤◌, Some, None, length, IfOk, IfSome, OnOk};
ghost use Rattle.cache_learning.specs.Lessons.{event_message};
ghost use Rattle.reply_tables.specs.Limits.{IsAnswerTo};
ghost use Rattle.reply_tables.specs.Written.{answer_data};
ghost use Rattle.value_store.specs.Learning.{answer_to, fitting, lesson_of, marked, most_data, no_store, stored_answer, taught, used_by, used_for};

use cache_learning::{hear_answer, hear_event};
use knowledge::{Knowledge, the_same_answer_the_same, the_same_learn_the_same};
use reply_tables::write_answer;
use std::alloc::{AllocError, Global};
use std::marker::Model;
use tcf_outside::Octets;
use tcf_values::{Answer, Command};

/// The most bytes of a message's data.
const MOST_DATA: usize = 1_048_576;

/// What is known, and the last position that came from above since the last Hello.
#[derive(Drop)]
pub struct Store {
    cache: Knowledge,
    mark: Option<u64>,
}

impl Model for Store {
    ghost use Rattle.std.specs.Coded.{codes};
    ghost use Rattle.value_store.specs.Rows.{rows_of};
    ghost use Rattle.value_store.specs.StoreValue.{StoreValue, store_code};

    ghost Value = { StoreValue };

    ghost coded = { store_code (Prim.hlevel codes) (Prim.hlevel codes) (Prim.hlevel codes) (Prim.hlevel codes) (Prim.hlevel codes) };

    ghost use Rattle.cache_learning.specs.Within.{AreWithin};
    ghost use Rattle.knowledge.specs.KnowledgeValue.{facts_of};

    ghost view = { λ s. record { known = rows_of s.cache; blocks = s.cache.blocks; mark = s.mark } };

    ghost invariant = { λ s. AreWithin (facts_of s.cache) };
}

impl Store {
    /// Knows nothing.
    pub fn new(alloc: Global) -> Result<Store, AllocError>
        ensures { IfOk result (λ store. store ≡ no_store) }
    {
        Ok(Store {
            cache: Knowledge::new(alloc)?,
            mark: None,
        })
    }

    /// The last position that came from above since the last Hello.
    pub fn mark(&self) -> Option<u64>
        ensures { result ≡ self.now.mark }
    {
        self.mark
    }

    /// Forgets the positions of an earlier binding.
    pub fn begin(&mut self)
        ensures { self.new ≡ record self.old { mark = None } }
    {
        self.mark = None;
    }

    /// A message came that has this position, if any.
    pub fn note(&mut self, mark: Option<u64>)
        ensures { self.new ≡ marked mark self.old }
    {
        if mark.is_some() {
            self.mark = mark;
        }
    }

    /// Learns an event.
    #[tactic(auto, using(crate::proofs::Learned::taught_is))]
    pub fn hear_event(
        &mut self,
        alloc: Global,
        service: &[u8],
        name: &[u8],
        body: &[u8],
    ) -> Result<(), AllocError>
        ensures { OnOk result (self.new ≡ taught (event_message service.now name.now body.now) self.old) }
    {
        the_same_learn_the_same();
        hear_event(alloc, &mut self.cache, service, name, body)
    }

    /// Learns the data of an answer to this command, where that was read.
    #[tactic(auto, using(crate::proofs::Learned::taught_is, crate::proofs::Learned::taught_nothing))]
    pub fn hear_answer(
        &mut self,
        alloc: Global,
        command: &Option<Command>,
        body: &[u8],
    ) -> Result<(), AllocError>
        ensures { OnOk result (self.new ≡ taught (lesson_of command.now body.now) self.old) }
    {
        the_same_learn_the_same();
        match command {
            Some(command) => hear_answer(alloc, &mut self.cache, command, body),
            None => Ok(()),
        }
    }

    /// The data of what is answered of a command, where all of that is known and can be sent. The block of memory that is
    /// used is the most recently used one then.
    pub fn answer(
        &mut self,
        alloc: Global,
        command: &Option<Command>,
    ) -> Result<Option<Octets>, AllocError>
        ensures answer { IfOk result (λ reply. reply ≡ answer_to command.now self.old) }
        ensures used { OnOk result (self.new ≡ used_by command.now self.old) }
        ensures fits { IfOk result (λ reply. IfSome reply (λ body. length body ≤ most_data)) }
    {
        match command {
            Some(command) => self.answer_command(alloc, command),
            None => Ok(None),
        }
    }

    #[tactic(auto, using(crate::proofs::Answered::within_used, crate::proofs::Answered::used_store, crate::proofs::Answered::found_is, crate::proofs::Answered::known_answer))]
    fn answer_command(
        &mut self,
        alloc: Global,
        command: &Command,
    ) -> Result<Option<Octets>, AllocError>
        ensures answer { IfOk result (λ reply. reply ≡ stored_answer command.now self.old) }
        ensures used { OnOk result (self.new ≡ used_for command.now self.old) }
        ensures fits { IfOk result (λ reply. IfSome reply (λ body. length body ≤ most_data)) }
    {
        the_same_answer_the_same();
        let Some(answer) = self.cache.reply(command)? else {
            return Ok(None);
        };
        data_of(alloc, command, &answer)
    }
}

/// The data of an answer, where they can be sent.
fn data_of(alloc: Global, command: &Command, answer: &Answer) -> Result<Option<Octets>, AllocError>
    requires { IsAnswerTo command.now answer.now }
    ensures value { IfOk result (λ reply. reply ≡ fitting (answer_data command.now answer.now)) }
    ensures fits { IfOk result (λ reply. IfSome reply (λ body. length body ≤ most_data)) }
{
    let mut data = Octets::new(alloc);
    write_answer(alloc, command, answer, &mut data)?;
    if data.len() <= MOST_DATA {
        Ok(Some(data))
    } else {
        Ok(None)
    }
}
