//! The calls by which a peer learns and forgets.
ghost use Rattle.std.specs.Prelude.{◌≡◌, false, [], ◌∷◌, ◌++◌, List, IsTrue, IsOk, OnOk, OnErr};
ghost use Rattle.knowledge.specs.Facts.{AreSame};
ghost use Rattle.knowledge.specs.KnowledgeValue.{IsCacheOf, blocks_learned, empty, facts_of};
ghost use Rattle.knowledge.specs.Learning.{Message, answer_taken, bad_event_taken, event_taken, learn, only_drops, teaches};

use crate::knowledge::Knowledge;
use std::alloc::AllocError;
use tcf_values::{Answer, Command, EventData};

impl Knowledge {
    /// Forgets all, as a peer does at an event whose data doesn't read, and where its channel is opened anew.
    pub fn forget(&mut self)
        ensures empty { self.new ≡ empty }
        ensures cache { (messages : List Message) → IsCacheOf (messages ++ bad_event_taken ∷ []) self.new }
    {
        self.drop_all();
    }

    /// Learns an event. One that tells nothing takes no memory. Where memory is wanting, all is forgotten.
    pub fn learn_event(&mut self, event: &EventData) -> Result<(), AllocError>
        ensures facts { OnOk result (AreSame (facts_of self.new) (learn (event_taken event.now) (facts_of self.old))) }
        ensures blocks { OnOk result (self.new.blocks ≡ blocks_learned (event_taken event.now) self.old) }
        ensures cache { OnOk result ((messages : List Message) → IsCacheOf messages self.old
            → IsCacheOf (messages ++ event_taken event.now ∷ []) self.new) }
        ensures at_once { IsTrue (only_drops event.now) → IsOk result }
        ensures empty { OnErr result (self.new ≡ empty) }
    {
        match self.take_event(event) {
            Ok(()) => Ok(()),
            Err(error) => {
                self.forget();
                Err(error)
            }
        }
    }

    /// Learns an answer to a command. One to a command whose answers tell nothing takes no memory. Where memory is wanting, all is forgotten.
    pub fn learn_answer(&mut self, command: &Command, answer: &Answer) -> Result<(), AllocError>
        ensures facts { OnOk result (AreSame (facts_of self.new) (learn (answer_taken command.now answer.now) (facts_of self.old))) }
        ensures blocks { OnOk result (self.new.blocks ≡ blocks_learned (answer_taken command.now answer.now) self.old) }
        ensures cache { OnOk result ((messages : List Message) → IsCacheOf messages self.old
            → IsCacheOf (messages ++ answer_taken command.now answer.now ∷ []) self.new) }
        ensures at_once { teaches command.now ≡ false → IsOk result }
        ensures empty { OnErr result (self.new ≡ empty) }
    {
        match self.take_answer(command, answer) {
            Ok(()) => Ok(()),
            Err(error) => {
                self.forget();
                Err(error)
            }
        }
    }
}
