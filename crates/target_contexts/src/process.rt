//! One process with its threads, and the image that it is started from.
ghost use Rattle.std.specs.Prelude.{◌≡◌, ◌<◌, IfErr, IfNone, IfOk, OnErr, OnOk};
ghost use Rattle.rv32i_core.specs.Bytes.{image_memory};
ghost use Rattle.rv32i_core.specs.PageKind.{own_count};
ghost use Rattle.target_contexts.specs.Contexts.{threads_data};
ghost use Rattle.target_contexts.specs.Spawning.{begun_number, with_begun};
ghost use Rattle.target_contexts.specs.Starting.{first_state, first_thread, process_from, suspended_text};

use crate::context::add_threads;
use crate::threads::{Thread, Threads};
use rv32i_core::{Cpu, Memory, Pages};
use std::alloc::{AllocError, Global};
use std::marker::Model;
use tcf_values::{Bytes, Contexts, Duplicate, Text, Texts};

/// A program's bytes under a name. A process is started from it.
#[derive(Debug, Drop)]
pub struct Image {
    pub name: Text,
    /// An ELF file, where they begin with 7f 45 4c 46. Else what stands in memory from the address 0 on, and then more
    /// than 65,536 bytes can't be started.
    pub bytes: Bytes,
}

/// How many threads a process can have.
const MOST_THREADS: u32 = 8;

/// Whether a thread runs.
#[derive(Debug, Drop)]
pub enum ThreadState {
    /// It runs; `left` is how many instructions it executes before it is suspended, if they are counted.
    Running { left: Option<u32> },
    /// It stands, for a reason in words. `hits` are the IDs of the breakpoints that it hit.
    Suspended { reason: Text, hits: Texts },
}

/// A process with its threads. Contracts see a record of the same fields, in which memory is its bytes, and beside it
/// how each page of the memory is kept.
#[derive(Drop)]
pub struct Process {
    /// The name of its image.
    pub name: Text,
    /// Whether the debugger is attached to it.
    pub attached: bool,
    pub threads: Threads,
    pub memory: Memory,
}

impl Model for Process {
    ghost use Rattle.target_contexts.specs.KeptProcess.{KeptProcess};

    ghost Value = { KeptProcess };

    ghost view = { λ p. record {
      seen = record { name = p.name; attached = p.attached; threads = p.threads; memory = p.memory.bytes };
      kinds = p.memory.kinds;
    } };
}

impl Process {
    /// Begins a thread that runs from this address on, with the argument in x10 and all other registers 0, and answers its
    /// number. `None` comes exactly where the process has 8 threads or the address is no multiple of 4, whatever the
    /// memory, and then nothing changes; nor does it after want of memory.
    pub fn begin_thread(&mut self, pc: u32, argument: u32) -> Result<Option<u32>, AllocError>
        ensures number { IfOk result (λ number. number ≡ begun_number pc self.old.seen) }
        ensures none { IfNone (begun_number pc self.old.seen) (result ≡ Ok None) }
        ensures after { OnOk result (self.new.seen ≡ with_begun pc argument self.old.seen) }
        ensures kept { OnErr result (self.new ≡ self.old) }
        ensures kinds { self.new.kinds ≡ self.old.kinds }
    {
        let count = self.threads.count();
        if count >= MOST_THREADS || pc % 4 != 0 {
            return Ok(None);
        }
        self.threads.push(Thread {
            state: ThreadState::Running { left: None },
            cpu: Cpu::begin(pc, argument),
        })?;
        Ok(Some(count + 1))
    }

    /// What RunControl tells of the threads of this process, which has the number, but for the first so many of them.
    pub fn threads_behind(
        &self,
        alloc: Global,
        behind: u32,
        number: u32,
    ) -> Result<Contexts, AllocError>
        requires { 0 < number }
        ensures { IfOk result (λ told. told ≡ threads_data behind number self.now.seen) }
    {
        let mut list = Contexts::new(alloc);
        add_threads(alloc, behind, number, self, &mut list)?;
        Ok(list)
    }
}

#[tactic(auto, unfolding(crate::specs::Starting::suspended_text))]
fn suspended_reason(alloc: Global) -> Result<Text, AllocError>
    ensures { IfOk result (λ text. text ≡ suspended_text) }
{
    Text::from_str(alloc, "Suspended")
}

fn first_state(alloc: Global, attach: bool) -> Result<ThreadState, AllocError>
    ensures { IfOk result (λ state. state ≡ first_state attach) }
{
    if attach {
        Ok(ThreadState::Suspended {
            reason: suspended_reason(alloc)?,
            hits: Texts::new(alloc),
        })
    } else {
        Ok(ThreadState::Running { left: None })
    }
}

/// The thread with which a process begins, at this address.
fn first_thread(alloc: Global, attach: bool, entry: u32) -> Result<Thread, AllocError>
    ensures { IfOk result (λ thread. thread ≡ first_thread attach entry) }
{
    Ok(Thread {
        state: first_state(alloc, attach)?,
        cpu: Cpu {
            pc: entry,
            x: [0; 32],
        },
    })
}

/// The process that a start of the image of this name makes, with these pages and this address of its first instruction.
/// No page of its memory is own.
pub(crate) fn new_process(
    alloc: Global,
    name: &Text,
    image: &Pages,
    entry: u32,
    attach: bool,
) -> Result<Process, AllocError>
    ensures seen { IfOk result (λ process. process.seen ≡ process_from attach name.now entry (image_memory image.now)) }
    ensures kinds { IfOk result (λ process. own_count process.kinds ≡ 0) }
{
    Ok(Process {
        name: name.copy()?,
        attached: attach,
        threads: Threads::one(alloc, first_thread(alloc, attach, entry)?)?,
        memory: Memory::new(alloc, image)?,
    })
}
