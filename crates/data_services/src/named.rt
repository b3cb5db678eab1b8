//! What an ID names among the live processes.
ghost use Rattle.std.specs.Prelude.{◌≡◌, ◌<◌, IfErr, IfOk, OnOk, IsSome, option_map};
ghost use Rattle.target_contexts.specs.Live.{process_of};
ghost use Rattle.tcf_values.specs.Ids.{register_of};
ghost use Rattle.target_contexts.specs.Named.{is_running, number_named};
ghost use Rattle.data_services.specs.Named.{process_named, holder_of, thread_with};
ghost use Rattle.data_services.specs.RegisterRows.{register_get_fault};

use target_contexts::{Targets, Thread};
use tcf_values::{Fault, RegisterId, Text, register_id};

/// The number of the live process that the ID of a process or of a thread stands for.
pub(crate) fn live_process(targets: &Targets, id: &Text) -> Result<u32, Fault>
    ensures number { IfOk result (λ number. number_named id.now ≡ Some number) }
    ensures process { IfOk result (λ number. process_named id.now targets.now.seen.processes ≡ process_of number targets.now.seen.processes) }
    ensures found { OnOk result (IsSome (process_named id.now targets.now.seen.processes)) }
    ensures positive { IfOk result (λ number. 0 < number) }
    ensures fault { IfErr result (λ fault. fault ≡ Fault.BadContext) }
    ensures missing { IfErr result (λ fault. process_named id.now targets.now.seen.processes ≡ None) }
{
    targets.live(id.as_bytes()).ok_or(Fault::BadContext)
}

/// The thread of a live process that has a register.
pub(crate) fn thread_with(targets: &Targets, register: RegisterId) -> Option<&Thread>
    ensures { option_map (λ t. t.now) result ≡ thread_with targets.now.seen.processes register }
{
    targets.thread(register.process, register.thread)
}

/// The register of this ID, of a live thread that doesn't run.
pub(crate) fn suspended_register(targets: &Targets, id: &Text) -> Result<RegisterId, Fault>
    ensures register { IfOk result (λ register. register_of id.now ≡ Some register) }
    ensures free { OnOk result (register_get_fault id.now targets.now.seen.processes ≡ None) }
    ensures due { IfErr result (λ fault. register_get_fault id.now targets.now.seen.processes ≡ Some fault) }
{
    let register = register_id(id.as_bytes()).ok_or(Fault::BadContext)?;
    let thread = thread_with(targets, register).ok_or(Fault::BadContext)?;
    if thread.state.runs() {
        Err(Fault::IsRunning)
    } else {
        Ok(register)
    }
}
