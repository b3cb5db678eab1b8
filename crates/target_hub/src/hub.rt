//! The hub: the one target of all channels, and what is done to it.
ghost use Rattle.std.specs.Prelude.{◌≡◌, true, false, None, IfNone, IfOk, IfSome, IsSome, OnErr, OnOk};
ghost use Rattle.command_tables.specs.Canonical.{IsReadable};
ghost use Rattle.command_tables.specs.Reading.{IsReading};
ghost use Rattle.reply_tables.specs.Written.{IsRefusal};
ghost use Rattle.service_names.specs.Commands.{name_in};
ghost use Rattle.target_contexts.specs.Named.{has_running};
ghost use Rattle.target_hub.specs.Answering.{after_reading, executed, only, refusal, written};
ghost use Rattle.target_hub.specs.Execution.{exec_after, exec_effect};
ghost use Rattle.target_hub.specs.HubValue.{new_target, usable};
ghost use Rattle.target_hub.specs.Limits.{AreEvents};
ghost use Rattle.target_hub.specs.Sendable.{AreSendable, IsBounded, IsSendable};
ghost use Rattle.target_hub.specs.Passing.{closed, closed_told, running_in, tick_told, ticked};

use crate::breakpoints_rows::tell_removed;
use crate::done::{Answered, Done};
use crate::execution::execute;
use crate::sendable::what_is_told_can_be_sent;
use crate::target::Target;
use breakpoints::Breakpoints;
use command_tables::Reading;
use reply_tables::{write_answer, write_refusal};
use std::alloc::{AllocError, Global};
use std::marker::Model;
use target_contexts::{Image, Targets, a_start_adds_one};
use tcf_outside::Octets;
use tcf_values::{Command, ContextId, Events};

/// The one target of all channels. Contracts see it, and whether memory was wanting in a call: then the hub is spent, and
/// each later call answers want of memory again.
#[derive(Drop)]
pub struct Hub {
    alloc: Global,
    target: Target,
    spent: bool,
}

impl Model for Hub {
    ghost use Rattle.target_hub.specs.HubValue.{HubValue};

    ghost Value = { HubValue };

    ghost use Rattle.target_hub.specs.Sendable.{IsHeld};

    ghost view = { λ h. record { target = h.target; is_spent = h.spent } };

    ghost invariant = { λ h. IsHeld h.spent h.target };
}

impl Hub {
    /// Makes a target with these images, of which the first of a name counts. No process lives, and there are no
    /// breakpoints.
    pub fn new(alloc: Global, images: Vec<Image>) -> Result<Hub, AllocError>
        ensures { IfOk result (λ hub. hub ≡ usable (new_target images.items)) }
    {
        let target = Target {
            contexts: Targets::new(alloc, images)?,
            breakpoints: Breakpoints::new(alloc),
        };
        Ok(Hub {
            alloc,
            target,
            spent: false,
        })
    }

    /// Executes what a channel's command is read as. A known command is answered by the canonical data of its answer, one
    /// whose arguments don't read by the report of the reading's code, and one that isn't known by `Unknown`, whatever the
    /// memory; the last two change nothing and tell nothing.
    pub fn execute(
        &mut self,
        channel: u64,
        service: &[u8],
        name: &[u8],
        reading: &Reading,
    ) -> Result<Done, AllocError>
        requires { IsReading service.now name.now reading.now }
        ensures unknown { self.old.is_spent ≡ false → reading.now ≡ Reading.Unknown → result ≡ Ok (only Answered.Unknown) }
        ensures done { IfOk result (λ done. done ≡ executed channel service.now name.now reading.now self.old.target) }
        ensures after { OnOk result (self.new ≡ usable (after_reading channel reading.now self.old.target)) }
        ensures events { IfOk result (λ done. AreEvents done.events) }
        ensures sendable { IfOk result (λ done. AreSendable done.events) }
        ensures fits { IfOk result (λ done. IsSendable done.answer) }
        ensures fresh { OnOk result (self.old.is_spent ≡ false) }
        ensures spent { OnErr result (self.new.is_spent ≡ true) }
    {
        self.begin()?;
        what_is_told_can_be_sent();
        let done = self.execute_read(channel, service, name, reading)?;
        self.spent = false;
        Ok(done)
    }

    /// Executes one instruction of a thread, and answers its events; `None` exactly where that isn't a live thread that
    /// runs, and then nothing changes, whatever the memory.
    #[tactic(auto, using(crate::proofs::Told::tick_fits, crate::proofs::Points::readable_like))]
    pub fn tick(&mut self, thread: ContextId) -> Result<Option<Events>, AllocError>
        ensures idle { self.old.is_spent ≡ false → IfNone (tick_told thread self.old.target) (result ≡ Ok None) }
        ensures told { IfOk result (λ told. told ≡ tick_told thread self.old.target) }
        ensures after { OnOk result (self.new ≡ usable (ticked thread self.old.target)) }
        ensures events { IfOk result (λ told. IfSome told AreEvents) }
        ensures sendable { IfOk result (λ told. IfSome told AreSendable) }
        ensures fresh { OnOk result (self.old.is_spent ≡ false) }
        ensures spent { OnErr result (self.new.is_spent ≡ true) }
    {
        self.begin()?;
        what_is_told_can_be_sent();
        let told = run_control::step(
            self.alloc,
            &mut self.target.contexts,
            &mut self.target.breakpoints,
            thread,
        )?;
        self.spent = false;
        Ok(told)
    }

    /// Takes the breakpoints of a channel that has gone, and answers the events that tell it.
    #[tactic(auto, using(crate::proofs::Kept::others_readable, crate::proofs::Given::removed_fit))]
    pub fn close(&mut self, channel: u64) -> Result<Events, AllocError>
        ensures told { IfOk result (λ told. told ≡ closed_told channel self.old.target) }
        ensures after { OnOk result (self.new ≡ usable (closed channel self.old.target)) }
        ensures events { IfOk result AreEvents }
        ensures sendable { IfOk result AreSendable }
        ensures fresh { OnOk result (self.old.is_spent ≡ false) }
        ensures spent { OnErr result (self.new.is_spent ≡ true) }
    {
        self.begin()?;
        what_is_told_can_be_sent();
        let ids = self.target.breakpoints.gone(channel)?;
        let mut told = Events::new(self.alloc);
        tell_removed(&ids, &mut told)?;
        self.spent = false;
        Ok(told)
    }

    /// The threads that run, in the order of their processes and then of their numbers.
    pub fn running(&self) -> Result<Vec<ContextId>, AllocError>
        ensures threads { IfOk result (λ threads. threads.items ≡ running_in self.now.target.contexts.processes) }
        ensures fresh { OnOk result (self.now.is_spent ≡ false) }
    {
        if self.spent {
            return Err(AllocError);
        }
        self.target.contexts.running()
    }

    /// Whether a thread runs. The look ends at the first one that does.
    pub fn has_running(&self) -> bool
        ensures { result ≡ has_running self.now.target.contexts.processes }
    {
        self.target.contexts.has_running()
    }

    /// Begins a call that may meet want of memory: the hub is spent until the call is done.
    fn begin(&mut self) -> Result<(), AllocError>
        ensures target { self.new.target ≡ self.old.target }
        ensures bounded { OnOk result (IsBounded self.old.target) }
        ensures fresh { OnOk result (self.old.is_spent ≡ false) }
        ensures refused { OnErr result (self.old.is_spent ≡ true) }
        ensures spent { self.new.is_spent ≡ true }
    {
        if self.spent {
            return Err(AllocError);
        }
        self.target.contexts.are_orderly();
        self.target.breakpoints.are_orderly();
        self.spent = true;
        Ok(())
    }

    /// Executes what a command is read as.
    fn execute_read(
        &mut self,
        channel: u64,
        service: &[u8],
        name: &[u8],
        reading: &Reading,
    ) -> Result<Done, AllocError>
        requires reading { IsReading service.now name.now reading.now }
        requires begun { self.old.is_spent ≡ true }
        ensures unknown { reading.now ≡ Reading.Unknown → result ≡ Ok (only Answered.Unknown) }
        ensures done { IfOk result (λ done. done ≡ executed channel service.now name.now reading.now self.old.target) }
        ensures after { OnOk result (self.new.target ≡ after_reading channel reading.now self.old.target) }
        ensures events { IfOk result (λ done. AreEvents done.events) }
        ensures spent { self.new.is_spent ≡ true }
    {
        match reading {
            Reading::Known(command) => self.execute_known(channel, command),
            Reading::Unknown => Ok(Done::only(self.alloc, Answered::Unknown)),
            Reading::Bad { code, .. } => self.refuse(service, name, *code),
        }
    }

    /// Executes a known command, and writes its answer.
    #[tactic(auto, using(crate::proofs::Given::exec_told, crate::proofs::Rows::exec_answers))]
    fn execute_known(&mut self, channel: u64, command: &Command) -> Result<Done, AllocError>
        requires command { IsReadable command.now }
        requires begun { self.old.is_spent ≡ true }
        ensures done { IfOk result (λ done. done ≡ written command.now (exec_effect channel command.now self.old.target)) }
        ensures after { OnOk result (self.new.target ≡ exec_after channel command.now self.old.target) }
        ensures events { IfOk result (λ done. AreEvents done.events) }
        ensures spent { self.new.is_spent ≡ true }
    {
        a_start_adds_one();
        self.target.contexts.are_orderly();
        self.target.breakpoints.are_orderly();
        let effect = execute(self.alloc, &mut self.target, channel, command)?;
        let mut data = Octets::new(self.alloc);
        write_answer(self.alloc, command, &effect.answer, &mut data)?;
        Ok(Done {
            progress: effect.progress,
            events: effect.events,
            answer: Answered::Result(data),
        })
    }

    /// The answer to a command whose arguments don't read.
    fn refuse(&self, service: &[u8], name: &[u8], code: u8) -> Result<Done, AllocError>
        requires named { IsSome (name_in service.now name.now) }
        requires code { IsRefusal code }
        ensures { IfOk result (λ done. done ≡ only (refusal (name_in service.now name.now) code)) }
    {
        let mut data = Octets::new(self.alloc);
        write_refusal(self.alloc, service, name, code, &mut data)?;
        Ok(Done::only(self.alloc, Answered::Result(data)))
    }
}
