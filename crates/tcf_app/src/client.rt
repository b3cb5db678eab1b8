//! The run of `client`: the script is done, and the client's log is printed.
ghost use Rattle.std.specs.Prelude.{◌≡◌, IfOk};
ghost use Rattle.tcf_schedules.specs.Script.{script_of};
ghost use Rattle.serving_wires.specs.Calls.{Makes};
ghost use Rattle.tcf_app.specs.Exit.{TellsFault};
ghost use Rattle.tcf_app.specs.Played.{client_text};
ghost use Rattle.tcf_app.specs.Ending.{Ends, EndsIn, IsRanEnding, exit_of, ran_ending};

use crate::chain::push_chain;
use crate::exit::Exit;
use crate::finish::finish_made;
use crate::refusing::{refuse_line, report_wire_fault};
use client_node::ClientNode;
use client_serving::{ClientEnd, ClientRun, run_client};
use std::alloc::{AllocError, Global};
use tcf_outside::{Octets, Sink};
use tcf_schedules::{TextRefusal, read_script};
use tcf_text::write_log;
use tcf_wires::{WireRefusal, Wires};

/// The text of a client: its log.
#[tactic(auto, unfolding(crate::specs::Played::client_name))]
fn text_of(alloc: Global, client: &ClientNode) -> Result<Octets, AllocError>
    ensures { IfOk result (λ text. text ≡ client_text client.now.log) }
{
    let mut text = Octets::new(alloc);
    push_chain(&mut text, b"client")?;
    write_log(client.log(), &mut text)?;
    Ok(text)
}

fn exit_of(end: ClientEnd) -> Exit
    ensures { result ≡ exit_of end }
{
    match end {
        ClientEnd::Done => Exit::Done,
        ClientEnd::Ended { cause } => Exit::Ended { cause },
        ClientEnd::Turns => Exit::Turns,
    }
}

/// Puts the log of a run.
fn put_log<S: Sink>(alloc: Global, run: &ClientRun, out: &mut S) -> Exit
    ensures ends { Ends (record { exit = exit_of run.now.end; text = client_text run.now.client.log }) result
        (S.seen out.old) (S.seen out.new) }
    ensures fault { TellsFault result (S.seen out.old) (S.seen out.new) }
{
    finish_made(out, text_of(alloc, &run.client), exit_of(run.end))
}

/// Puts the text of a run that came to this.
fn report_run<S: Sink>(alloc: Global, ran: &Result<ClientRun, WireRefusal>, out: &mut S) -> Exit
    ensures ends { Ends (ran_ending ran.now) result (S.seen out.old) (S.seen out.new) }
    ensures fault { TellsFault result (S.seen out.old) (S.seen out.new) }
{
    match ran {
        Ok(run) => put_log(alloc, run, out),
        Err(WireRefusal::Failed) => report_wire_fault(out),
        Err(WireRefusal::NoMemory) => Exit::NoMemory,
    }
}

/// Does the script that the file says, and puts the client's log.
pub(crate) fn do_script<S: Sink, W: Wires>(
    alloc: Global,
    address: &str,
    file: &[u8],
    turns: u32,
    out: &mut S,
    wires: &mut W,
) -> Exit
    ensures ends { Makes (λ calls. EndsIn (IsRanEnding (script_of file.now) address.now turns calls) result
        (S.seen out.old) (S.seen out.new)) (W.seen wires.old) (W.seen wires.new) }
    ensures fault { TellsFault result (S.seen out.old) (S.seen out.new) }
{
    match read_script(alloc, file) {
        Ok(script) => {
            let ran = run_client(alloc, wires, address, script.as_slice(), turns);
            report_run(alloc, &ran, out)
        }
        Err(TextRefusal::Bad { line, what }) => refuse_line(alloc, line, what, out),
        Err(TextRefusal::NoMemory) => Exit::NoMemory,
    }
}
