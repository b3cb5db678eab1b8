//! The run of a client.
ghost use Rattle.std.specs.Prelude.{IfOk, IsErrOf, false};
ghost use Rattle.std.specs.List.{AllByRecursion};
ghost use Rattle.tcf_outside.specs.Faults.{Rose};
ghost use Rattle.tcf_schedules.specs.Script.{IsFit};
ghost use Rattle.tcf_text.specs.Once.{Once};
ghost use Rattle.serving_wires.specs.Calls.{Makes};
ghost use Rattle.client_serving.specs.Run.{RunsClient};
ghost use Rattle.client_serving.specs.Begun.{RunsOn};

use crate::end::{ClientEnd, ClientRun};
use crate::laws::whatever_comes_each_command_is_answered_once;
use crate::serving::Serving;
use serving_wires::{Sending, each_wire_is_carried, take_turn};
use std::alloc::Global;
use tcf_schedules::ScriptLine;
use tcf_wires::{WireRefusal, Wires};

/// Connects to the address, and lets a client do this script. Lines are done before the first event and after each
/// message that is taken, as far as no `wait` holds them. In each of the turns, of which there are 1 to 1,000,000,000, one
/// event is taken; all messages that can be taken are taken; then what is queued is put, in one put. Behind the last line,
/// with nothing pending, the client closes its channel, and puts what is queued once.
///
/// What the wire doesn't take is put first after the next event; what is queued for a lost wire is dropped, and the client
/// learns of it by an event alone. The wire is shut where the channel is closed and nothing is left to put.
///
/// `Failed` where the address can't be connected to, or the wires give nothing any more.
///
/// Nothing is asked of the bytes that come: whatever they are, and however the run ends, each command of its log is
/// answered once.
pub fn run_client<W: Wires>(
    alloc: Global,
    wires: &mut W,
    address: &str,
    script: &[ScriptLine],
    turns: u32,
) -> Result<ClientRun, WireRefusal>
    requires { AllByRecursion IsFit script.now }
    ensures runs { Makes (RunsClient script.now address.now turns result)
        (W.seen wires.old) (W.seen wires.new) }
    ensures fault { IsErrOf result WireRefusal.Failed → Rose (W.seen wires.old).faults (W.seen wires.new).faults }
    ensures once { IfOk result (λ run. Once false run.client.log) }
{
    whatever_comes_each_command_is_answered_once();
    try_run(alloc, wires, address, script, turns)
}

fn try_run<W: Wires>(
    alloc: Global,
    wires: &mut W,
    address: &str,
    script: &[ScriptLine],
    turns: u32,
) -> Result<ClientRun, WireRefusal>
    requires { AllByRecursion IsFit script.now }
    ensures { Makes (RunsClient script.now address.now turns result) (W.seen wires.old) (W.seen wires.new) }
{
    each_wire_is_carried();
    let channel = wires.connect(address)?;
    let mut sending = Sending::new(alloc);
    let mut serving = Serving::begin(alloc, address, channel, script, &mut sending)?;
    let end = serve(&mut serving, &mut sending, wires, turns)?;
    Ok(serving.into_run(end))
}

/// Serves a client that has begun, until its run ends.
fn serve<W: Wires>(
    serving: &mut Serving<'_>,
    sending: &mut Sending,
    wires: &mut W,
    turns: u32,
) -> Result<ClientEnd, WireRefusal>
    ensures { Makes (RunsOn turns result (record { served = serving.old; sending = sending.old }) serving.new (W.seen wires.old).unused) (W.seen wires.old) (W.seen wires.new) }
{
    each_wire_is_carried();
    if let Some(end) = serving.end() {
        sending.flush(wires)?;
        return Ok(end);
    }
    for counter in 0..turns {
        take_turn(serving, sending, wires)?;
        if let Some(end) = serving.end() {
            return Ok(end);
        }
    }
    Ok(ClientEnd::Turns)
}
