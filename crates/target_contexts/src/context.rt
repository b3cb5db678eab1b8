//! What RunControl tells of a process and of its threads.
ghost use Rattle.std.specs.Prelude.{◌≡◌, ◌<◌, ◌++◌, ◌∷◌, [], IfOk, OnOk};
ghost use Rattle.target_contexts.specs.Contexts.{process_data, thread_data, threads_data};

use crate::process::Process;
use std::alloc::{AllocError, Global};
use tcf_values::{ContextData, ContextId, Contexts, Duplicate, context_text};

/// The bits of the modes 0, to go on, and 2, to step.
const RESUME_MODES: u32 = 0b101;

/// The bit of the mode 2, which takes a count of steps.
const COUNT_MODES: u32 = 0b100;

pub(crate) fn process_data(
    alloc: Global,
    number: u32,
    process: &Process,
) -> Result<ContextData, AllocError>
    requires { 0 < number }
    ensures { IfOk result (λ made. made ≡ process_data number process.now.seen) }
{
    let id = ContextId::Process(number);
    Ok(ContextData {
        id: context_text(alloc, id)?,
        parent: None,
        process: context_text(alloc, id)?,
        name: Some(process.name.copy()?),
        container: true,
        has_state: false,
        can_suspend: false,
        can_terminate: true,
        can_resume: 0,
        can_count: 0,
    })
}

pub(crate) fn thread_data(
    alloc: Global,
    number: u32,
    n: u32,
    process: &Process,
) -> Result<ContextData, AllocError>
    requires process { 0 < number }
    requires thread { 0 < n }
    ensures { IfOk result (λ made. made ≡ thread_data number n process.now.seen) }
{
    let id = ContextId::Process(number);
    Ok(ContextData {
        id: context_text(alloc, ContextId::Thread(number, n))?,
        parent: Some(context_text(alloc, id)?),
        process: context_text(alloc, id)?,
        name: None,
        container: false,
        has_state: true,
        can_suspend: process.attached,
        can_terminate: true,
        can_resume: if process.attached { RESUME_MODES } else { 0 },
        can_count: if process.attached { COUNT_MODES } else { 0 },
    })
}

/// Of one thread, put last.
fn add_thread(
    alloc: Global,
    number: u32,
    n: u32,
    process: &Process,
    list: &mut Contexts,
) -> Result<(), AllocError>
    requires process { 0 < number }
    requires thread { 0 < n }
    ensures { OnOk result (list.new ≡ list.old ++ thread_data number n process.now.seen ∷ []) }
{
    list.push(thread_data(alloc, number, n, process)?)
}

/// Of the threads behind the first so many, put last in order.
#[tactic(auto, using(crate::proofs::Told::threads_more))]
pub(crate) fn add_threads(
    alloc: Global,
    behind: u32,
    number: u32,
    process: &Process,
    list: &mut Contexts,
) -> Result<(), AllocError>
    requires { 0 < number }
    ensures { OnOk result (list.new ≡ list.old ++ threads_data behind number process.now.seen) }
{
    for place in 0..process.threads.count().saturating_sub(behind) {
        add_thread(alloc, number, behind + place + 1, process, list)?;
    }
    Ok(())
}
