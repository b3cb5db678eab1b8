//! The lines of a script are done by a client.
ghost use Rattle.std.specs.Prelude.{◌≡◌, IfOk, OnOk};
ghost use Rattle.std.specs.List.{AllByRecursion};
ghost use Rattle.tcf_schedules.specs.Script.{IsFit};
ghost use Rattle.client_serving.specs.Lines.{did, did_lines, is_held};

use client_node::ClientNode;
use std::alloc::AllocError;
use tcf_schedules::ScriptLine;

/// Does the lines in order, as far as no `wait` holds them: one holds while a command is pending. Answers the lines that
/// are left.
pub(crate) fn do_lines<'a>(
    client: &mut ClientNode,
    script: &'a [ScriptLine],
) -> Result<&'a [ScriptLine], AllocError>
    requires { AllByRecursion IsFit script.now }
    ensures client { OnOk result (client.new ≡ (did_lines script.now client.old).0) }
    ensures left { IfOk result (λ left. left.now ≡ (did_lines script.now client.old).1) }
    ensures fit { IfOk result (λ left. AllByRecursion IsFit left.now) }
{
    let mut left = script;
    while let Some((line, later)) = left.split_first() {
        if is_held(line, client.pending()) {
            return Ok(left);
        }
        do_line(client, line)?;
        left = later;
    }
    Ok(left)
}

/// Whether the line waits while so many commands are pending.
fn is_held(line: &ScriptLine, pending: usize) -> bool
    ensures { result ≡ is_held line.now pending }
{
    match line {
        ScriptLine::Wait => pending > 0,
        _ => false,
    }
}

/// Does a line that nothing holds.
fn do_line(client: &mut ClientNode, line: &ScriptLine) -> Result<(), AllocError>
    requires { IsFit line.now }
    ensures { OnOk result (client.new ≡ did line.now client.old) }
{
    match line {
        ScriptLine::Send {
            service,
            name,
            body,
        } => client.send(service.as_slice(), name.as_slice(), body.as_slice()),
        ScriptLine::Wait => Ok(()),
        ScriptLine::Cached { what } => client.cached(what),
        ScriptLine::Close => client.close(),
    }
}
