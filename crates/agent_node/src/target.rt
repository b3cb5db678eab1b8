//! What the agent has its hub do, under the words of its own definitions.
ghost use Rattle.std.specs.Prelude.{◌≡◌, IfOk, IfSome, None, Ok, OnOk};
ghost use Rattle.target_hub.specs.Sendable.{AreSendable, IsSendable};
ghost use Rattle.target_hub.specs.Limits.{AreEvents};
ghost use Rattle.agent_node.specs.Agent.{IsRead, done_by, first_target, going_leaves, going_tells, instruction_leaves, instruction_tells, left_by, read_as};

use command_tables::{Reading, read_command};
use std::alloc::{AllocError, Global};
use target_hub::{Done, Events, Hub, Image};
use tcf_values::ContextId;

/// Makes the hub.
#[tactic(auto, unfolding(crate::specs::Agent::first_target))]
pub(crate) fn new_hub(alloc: Global, images: Vec<Image>) -> Result<Hub, AllocError>
    ensures { IfOk result (λ hub. hub.target ≡ first_target images.items) }
{
    Hub::new(alloc, images)
}

/// Reads the data of a command.
#[tactic(auto, unfolding(crate::specs::Agent::read_as, crate::specs::Agent::IsRead))]
pub(crate) fn read_data(
    alloc: Global,
    service: &[u8],
    name: &[u8],
    body: &[u8],
) -> Result<Reading, AllocError>
    ensures reading { IfOk result (λ reading. reading ≡ read_as service.now name.now body.now) }
    ensures legal { IfOk result (IsRead service.now name.now) }
{
    read_command(alloc, service, name, body)
}

/// Executes a command as it is read.
#[tactic(auto, unfolding(crate::specs::Agent::done_by, crate::specs::Agent::left_by, crate::specs::Agent::IsRead))]
pub(crate) fn execute(
    hub: &mut Hub,
    k: u64,
    service: &[u8],
    name: &[u8],
    reading: &Reading,
) -> Result<Done, AllocError>
    requires { IsRead service.now name.now reading.now }
    ensures done { IfOk result (λ done. done ≡ done_by k service.now name.now reading.now hub.old.target) }
    ensures after { OnOk result (hub.new.target ≡ left_by k reading.now hub.old.target) }
    ensures events { IfOk result (λ done. AreEvents done.events) }
    ensures sendable { IfOk result (λ done. AreSendable done.events) }
    ensures fits { IfOk result (λ done. IsSendable done.answer) }
{
    hub.execute(k, service, name, reading)
}

/// Takes the breakpoints of a channel that has gone.
#[tactic(auto, unfolding(crate::specs::Agent::going_tells, crate::specs::Agent::going_leaves))]
pub(crate) fn close(hub: &mut Hub, k: u64) -> Result<Events, AllocError>
    ensures told { IfOk result (λ events. events ≡ going_tells k hub.old.target) }
    ensures after { OnOk result (hub.new.target ≡ going_leaves k hub.old.target) }
    ensures events { IfOk result AreEvents }
    ensures sendable { IfOk result AreSendable }
{
    hub.close(k)
}

/// Executes one instruction of a thread.
#[tactic(auto, unfolding(crate::specs::Agent::instruction_tells, crate::specs::Agent::instruction_leaves))]
pub(crate) fn tick(hub: &mut Hub, thread: ContextId) -> Result<Option<Events>, AllocError>
    ensures told { IfOk result (λ events. events ≡ instruction_tells thread hub.old.target) }
    ensures idle { result ≡ Ok None → hub.new.target ≡ hub.old.target }
    ensures after { OnOk result (hub.new.target ≡ instruction_leaves thread hub.old.target) }
    ensures events { IfOk result (λ events. IfSome events AreEvents) }
    ensures sendable { IfOk result (λ events. IfSome events AreSendable) }
{
    hub.tick(thread)
}
