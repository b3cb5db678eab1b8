//! Which live process a text names.
ghost use Rattle.std.specs.Prelude.{◌≡◌, ◌<◌, Some, None, IfErr, IfOk, IsSome, OnOk};
ghost use Rattle.target_contexts.specs.Named.{holder_named, number_named, process_at_number, thread_at_pair, thread_named};
ghost use Rattle.run_control.specs.Naming.{process_named};

use target_contexts::Targets;
use tcf_values::{ContextId, Fault, Text, context_id};

/// The thread of a live process that a text names, behind the number of the process.
pub(crate) fn live_thread(targets: &Targets, id: &Text) -> Result<(u32, u32), Fault>
    ensures pair { IfOk result (λ pair. thread_named id.now ≡ Some pair) }
    ensures process { IfOk result (λ pair. number_named id.now ≡ Some pair.0) }
    ensures positive { IfOk result (λ pair. 0 < pair.0) }
    ensures numbered { IfOk result (λ pair. 0 < pair.1) }
    ensures found { OnOk result (IsSome (thread_at_pair (thread_named id.now) targets.now.seen.processes)) }
    ensures fault { IfErr result (λ fault. fault ≡ Fault.BadContext) }
    ensures missing { IfErr result (λ _. thread_at_pair (thread_named id.now) targets.now.seen.processes ≡ None) }
{
    targets.live_thread(id.as_bytes()).ok_or(Fault::BadContext)
}

/// The live process that a text stands for, as the ID of the process or of a thread that it has.
pub(crate) fn live(targets: &Targets, id: &Text) -> Result<u32, Fault>
    ensures number { IfOk result (λ number. number_named id.now ≡ Some number) }
    ensures positive { IfOk result (λ number. 0 < number) }
    ensures found { OnOk result (IsSome (holder_named id.now targets.now.seen.processes)) }
    ensures fault { IfErr result (λ fault. fault ≡ Fault.BadContext) }
    ensures missing { IfErr result (λ _. holder_named id.now targets.now.seen.processes ≡ None) }
{
    targets.live(id.as_bytes()).ok_or(Fault::BadContext)
}

/// The process that a text names, whether it lives or not. A thread's ID names none.
fn process_named(id: &Text) -> Option<u32>
    ensures { result ≡ process_named id.now }
{
    match context_id(id.as_bytes())? {
        ContextId::Process(number) => Some(number),
        ContextId::Thread(..) => None,
    }
}

/// The live process that a text names. A thread's ID names none.
pub(crate) fn live_process(targets: &Targets, id: &Text) -> Result<u32, Fault>
    ensures number { IfOk result (λ number. process_named id.now ≡ Some number) }
    ensures positive { IfOk result (λ number. 0 < number) }
    ensures found { OnOk result (IsSome (process_at_number (process_named id.now) targets.now.seen.processes)) }
    ensures fault { IfErr result (λ fault. fault ≡ Fault.BadContext) }
    ensures missing { IfErr result (λ _. process_at_number (process_named id.now) targets.now.seen.processes ≡ None) }
{
    let number = process_named(id).ok_or(Fault::BadContext)?;
    match targets.process(number) {
        Some(_) => Ok(number),
        None => Err(Fault::BadContext),
    }
}
