//! What an ID names among the live processes.
ghost use Rattle.std.specs.Prelude.{◌≡◌, ◌<◌, ◌↔◌, Some, IfSome, IsSome, OnSome};
ghost use Rattle.target_contexts.specs.Live.{process_of};
ghost use Rattle.target_contexts.specs.Named.{holder_for, holder_named, is_attached, is_running, number_for as the_number_for, number_named, runs, thread_at_pair, thread_for as the_thread_for, thread_named};
ghost use Rattle.target_contexts.specs.Threads.{holding, thread_of};

use crate::process::ThreadState;
use crate::targets::Targets;
use tcf_values::{ContextId, context_id};

/// The process that an ID stands for, whether it lives or not. The ID of a thread stands for its process.
pub fn number_for(id: ContextId) -> u32
    ensures { result ≡ the_number_for id }
{
    match id {
        ContextId::Process(number) | ContextId::Thread(number, _) => number,
    }
}

/// The process of a thread and the thread's number in it, whether they live or not. `None` comes for a process.
pub fn thread_for(id: ContextId) -> Option<(u32, u32)>
    ensures { result ≡ the_thread_for id }
{
    match id {
        ContextId::Thread(number, n) => Some((number, n)),
        ContextId::Process(_) => None,
    }
}

impl ThreadState {
    /// Whether the thread runs.
    pub fn runs(&self) -> bool
        ensures { result ≡ runs self.now }
    {
        match self {
            ThreadState::Running { .. } => true,
            ThreadState::Suspended { .. } => false,
        }
    }
}

impl Targets {
    /// The number of the live process that a text stands for, as the ID of the process or of a thread that it has. `None`
    /// comes exactly where there is none.
    pub fn live(&self, id: &[u8]) -> Option<u32>
        ensures number { OnSome result (result ≡ number_named id.now) }
        ensures positive { IfSome result (λ number. 0 < number) }
        ensures process { IfSome result (λ number. holder_named id.now self.now.seen.processes ≡ process_of number self.now.seen.processes) }
        ensures found { IsSome result ↔ IsSome (holder_named id.now self.now.seen.processes) }
    {
        self.lives(context_id(id)?)
    }

    /// The thread that a text names, of a live process, and the number of this process before it. `None` comes exactly
    /// where there is none.
    pub fn live_thread(&self, id: &[u8]) -> Option<(u32, u32)>
        ensures pair { OnSome result (result ≡ thread_named id.now) }
        ensures process { IfSome result (λ pair. number_named id.now ≡ Some pair.0) }
        ensures positive { IfSome result (λ pair. 0 < pair.0) }
        ensures numbered { IfSome result (λ pair. 0 < pair.1) }
        ensures found { IsSome result ↔ IsSome (thread_at_pair (thread_named id.now) self.now.seen.processes) }
    {
        let (number, n) = thread_for(context_id(id)?)?;
        match self.thread(number, n) {
            Some(_) => Some((number, n)),
            None => None,
        }
    }

    /// Whether a thread of a live process runs.
    pub fn is_running(&self, number: u32, n: u32) -> bool
        ensures { result ≡ is_running (thread_of number n self.now.seen.processes) }
    {
        match self.thread(number, n) {
            Some(thread) => thread.state.runs(),
            None => false,
        }
    }

    /// Whether a live process is attached.
    pub fn is_attached(&self, number: u32) -> bool
        ensures { result ≡ is_attached (process_of number self.now.seen.processes) }
    {
        match self.process(number) {
            Some(process) => process.attached,
            None => false,
        }
    }

    /// The number of the process that an ID stands for, where it lives and has the thread.
    fn lives(&self, id: ContextId) -> Option<u32>
        ensures number { OnSome result (result ≡ Some (the_number_for id)) }
        ensures positive { IfSome result (λ number. 0 < number) }
        ensures process { IfSome result (λ number. holder_for id self.now.seen.processes ≡ process_of number self.now.seen.processes) }
        ensures found { IsSome result ↔ IsSome (holder_for id self.now.seen.processes) }
    {
        match id {
            ContextId::Process(number) => self.has(number),
            ContextId::Thread(number, n) => self.holds(number, n),
        }
    }

    /// The number, where a live process has it.
    fn has(&self, number: u32) -> Option<u32>
        ensures number { OnSome result (result ≡ Some number) }
        ensures positive { OnSome result (0 < number) }
        ensures found { IsSome result ↔ IsSome (process_of number self.now.seen.processes) }
    {
        match self.process(number) {
            Some(_) => Some(number),
            None => None,
        }
    }

    /// The number, where a live process has it and a thread of this number.
    #[tactic(auto, using(crate::proofs::Holding::held, crate::proofs::Holding::held_some, crate::proofs::Holding::not_held))]
    fn holds(&self, number: u32, n: u32) -> Option<u32>
        ensures number { OnSome result (result ≡ Some number) }
        ensures positive { OnSome result (0 < number) }
        ensures process { OnSome result (holding n (process_of number self.now.seen.processes) ≡ process_of number self.now.seen.processes) }
        ensures found { IsSome result ↔ IsSome (holding n (process_of number self.now.seen.processes)) }
    {
        match self.thread(number, n) {
            Some(_) => Some(number),
            None => None,
        }
    }
}
