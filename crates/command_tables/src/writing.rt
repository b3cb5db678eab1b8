//! Writing a command.
ghost use Rattle.std.specs.Prelude.{◌≡◌, ◌≤◌, ◌++◌, length, IfOk, OnOk};
ghost use Rattle.std.specs.List.{AllByRecursion};
ghost use Rattle.json_args.specs.Kinds.{IsWhole};
ghost use Rattle.json_values.specs.Locations.{IsLocation};
ghost use Rattle.command_tables.specs.Canonical.{IsReadable, body_of, canonical};
ghost use Rattle.command_tables.specs.Reading.{reading_of};
ghost use Rattle.command_tables.specs.Written.{BytesDecode, TextsRead};
ghost use Rattle.service_names.specs.Commands.{name_of, named_as, service_of};

use crate::reading::Reading;
use json_values::{put, put_blob};
use service_names::name_of_command;
use std::alloc::{AllocError, Global};
use tcf_outside::Octets;
use tcf_values::{Bytes, Command, Locations, Text, Texts};

/// A command as it is sent.
#[derive(Debug, Drop)]
pub struct WrittenCommand {
    pub service: Text,
    pub name: Text,
    /// The arguments, each with its zero.
    pub body: Octets,
}

/// Puts the arguments of `RunControl resume` last.
#[tactic(auto, using(crate::proofs::Bodies::part_then))]
fn put_resume(
    alloc: Global,
    id: &Text,
    mode: &i128,
    count: &i128,
    out: &mut Bytes,
) -> Result<(), AllocError>
    requires mode { IsWhole mode.now }
    requires count { IsWhole count.now }
    ensures ok { OnOk result (out.new ≡ out.old ++ body_of (Command.Resume id.now mode.now count.now)) }
    ensures reads { OnOk result (TextsRead (canonical (Command.Resume id.now mode.now count.now))) }
    ensures decodes { OnOk result (BytesDecode (Command.Resume id.now mode.now count.now)) }
{
    put(alloc, id, out)?;
    put(alloc, mode, out)?;
    put(alloc, count, out)
}

/// Puts the arguments of `Memory get`, with which those of `Memory set` begin last.
#[tactic(auto, using(crate::proofs::Bodies::part_then))]
fn put_mem_get(
    alloc: Global,
    id: &Text,
    addr: &i128,
    word: &i128,
    size: &i128,
    mode: &i128,
    out: &mut Bytes,
) -> Result<(), AllocError>
    requires addr { IsWhole addr.now }
    requires word { IsWhole word.now }
    requires size { IsWhole size.now }
    requires mode { IsWhole mode.now }
    ensures ok { OnOk result (out.new ≡ out.old ++ body_of (Command.MemGet id.now addr.now word.now size.now mode.now)) }
    ensures reads { OnOk result (TextsRead (canonical (Command.MemGet id.now addr.now word.now size.now mode.now))) }
    ensures decodes { OnOk result (BytesDecode (Command.MemGet id.now addr.now word.now size.now mode.now)) }
{
    put(alloc, id, out)?;
    put(alloc, addr, out)?;
    put(alloc, word, out)?;
    put(alloc, size, out)?;
    put(alloc, mode, out)
}

/// Puts the arguments of `Registers set` last.
#[tactic(auto, using(crate::proofs::Bodies::part_then))]
fn put_reg_set(alloc: Global, id: &Text, bytes: &Bytes, out: &mut Bytes) -> Result<(), AllocError>
    ensures ok { OnOk result (out.new ≡ out.old ++ body_of (Command.RegSet id.now bytes.now)) }
    ensures reads { OnOk result (TextsRead (canonical (Command.RegSet id.now bytes.now))) }
    ensures decodes { OnOk result (BytesDecode (Command.RegSet id.now bytes.now)) }
{
    put(alloc, id, out)?;
    put_blob(alloc, bytes.as_slice(), out)
}

/// Puts the arguments of `Registers setm` last.
#[tactic(auto, using(crate::proofs::Bodies::part_then))]
fn put_reg_setm(
    alloc: Global,
    list: &Locations,
    bytes: &Bytes,
    out: &mut Bytes,
) -> Result<(), AllocError>
    requires { AllByRecursion IsLocation list.now }
    ensures ok { OnOk result (out.new ≡ out.old ++ body_of (Command.RegSetm list.now bytes.now)) }
    ensures reads { OnOk result (TextsRead (canonical (Command.RegSetm list.now bytes.now))) }
    ensures decodes { OnOk result (BytesDecode (Command.RegSetm list.now bytes.now)) }
{
    put(alloc, list, out)?;
    put_blob(alloc, bytes.as_slice(), out)
}

/// Puts the arguments of `Processes getChildren` last.
#[tactic(auto, using(crate::proofs::Bodies::part_then))]
fn put_proc_children(
    alloc: Global,
    id: &Text,
    attached: &bool,
    out: &mut Bytes,
) -> Result<(), AllocError>
    ensures ok { OnOk result (out.new ≡ out.old ++ body_of (Command.ProcChildren id.now attached.now)) }
    ensures reads { OnOk result (TextsRead (canonical (Command.ProcChildren id.now attached.now))) }
    ensures decodes { OnOk result (BytesDecode (Command.ProcChildren id.now attached.now)) }
{
    put(alloc, id, out)?;
    put(alloc, attached, out)
}

/// Puts the arguments of `Processes start` last.
#[tactic(auto, using(crate::proofs::Bodies::part_then))]
fn put_proc_start(
    alloc: Global,
    directory: &Text,
    file: &Text,
    args: &Texts,
    environment: &Texts,
    attach: &bool,
    out: &mut Bytes,
) -> Result<(), AllocError>
    ensures ok { OnOk result (out.new ≡ out.old ++ body_of (Command.ProcStart directory.now file.now args.now environment.now attach.now)) }
    ensures reads { OnOk result (TextsRead (canonical (Command.ProcStart directory.now file.now args.now environment.now attach.now))) }
    ensures decodes { OnOk result (BytesDecode (Command.ProcStart directory.now file.now args.now environment.now attach.now)) }
{
    put(alloc, directory, out)?;
    put(alloc, file, out)?;
    put(alloc, args, out)?;
    put(alloc, environment, out)?;
    put(alloc, attach, out)
}

/// Puts the arguments of `Trace run` last.
#[tactic(auto, using(crate::proofs::Bodies::part_then))]
fn put_trace_run(alloc: Global, id: &Text, count: &i128, out: &mut Bytes) -> Result<(), AllocError>
    requires { IsWhole count.now }
    ensures ok { OnOk result (out.new ≡ out.old ++ body_of (Command.TraceRun id.now count.now)) }
    ensures reads { OnOk result (TextsRead (canonical (Command.TraceRun id.now count.now))) }
    ensures decodes { OnOk result (BytesDecode (Command.TraceRun id.now count.now)) }
{
    put(alloc, id, out)?;
    put(alloc, count, out)
}

/// Puts the argument of a command that has no more than one last.
fn put_argument(alloc: Global, command: &Command, out: &mut Bytes) -> Result<(), AllocError>
    requires readable { IsReadable command.now }
    requires single { length (canonical command.now) ≤ 1 }
    ensures ok { OnOk result (out.new ≡ out.old ++ body_of command.now) }
    ensures reads { OnOk result (TextsRead (canonical command.now)) }
    ensures decodes { OnOk result (BytesDecode command.now) }
{
    match command {
        Command::Sync | Command::GetPeers | Command::BpIds => Ok(()),
        Command::Redirect { peer: id }
        | Command::GetContext { id }
        | Command::GetChildren { id }
        | Command::GetState { id }
        | Command::Suspend { id }
        | Command::Terminate { id }
        | Command::BpProperties { id }
        | Command::BpGetStatus { id }
        | Command::BpCapabilities { id }
        | Command::RegGet { id }
        | Command::ProcContext { id }
        | Command::ProcAttach { id }
        | Command::ProcDetach { id }
        | Command::ProcTerminate { id } => put(alloc, id, out),
        Command::BpEnable { ids } | Command::BpDisable { ids } | Command::BpRemove { ids } => put(
            alloc, ids, out,
        ),
        Command::BpAdd { props } | Command::BpChange { props } => put(alloc, props, out),
        Command::BpSet { list } => put(alloc, list, out),
        Command::RegGetm { list } => put(alloc, list, out),
        _ => unreachable!(),
    }
}

/// Puts the arguments of the command last.
#[tactic(auto, using(crate::proofs::Bodies::set_after_get))]
fn put_arguments(alloc: Global, command: &Command, out: &mut Bytes) -> Result<(), AllocError>
    requires { IsReadable command.now }
    ensures ok { OnOk result (out.new ≡ out.old ++ body_of command.now) }
    ensures reads { OnOk result (TextsRead (canonical command.now)) }
    ensures decodes { OnOk result (BytesDecode command.now) }
{
    match command {
        Command::Resume { id, mode, count } => put_resume(alloc, id, mode, count, out),
        Command::MemGet {
            id,
            addr,
            word,
            size,
            mode,
        } => put_mem_get(alloc, id, addr, word, size, mode, out),
        Command::MemSet {
            id,
            addr,
            word,
            size,
            mode,
            bytes,
        } => {
            put_mem_get(alloc, id, addr, word, size, mode, out)?;
            put_blob(alloc, bytes.as_slice(), out)
        }
        Command::RegSet { id, bytes } => put_reg_set(alloc, id, bytes, out),
        Command::RegSetm { list, bytes } => put_reg_setm(alloc, list, bytes, out),
        Command::ProcChildren { id, attached } => put_proc_children(alloc, id, attached, out),
        Command::ProcStart {
            directory,
            file,
            args,
            environment,
            attach,
        } => put_proc_start(alloc, directory, file, args, environment, attach, out),
        Command::TraceRun { id, count } => put_trace_run(alloc, id, count, out),
        _ => put_argument(alloc, command, out),
    }
}

/// Writes a command: its service, its name, and the canonical text of each argument with its zero. Its condition is
/// that the command is one that is read from some data.
pub fn write_command(alloc: Global, command: &Command) -> Result<WrittenCommand, AllocError>
    requires { IsReadable command.now }
    ensures service { IfOk result (λ written. written.service ≡ service_of (named_as command.now)) }
    ensures name { IfOk result (λ written. written.name ≡ name_of (named_as command.now)) }
    ensures body { IfOk result (λ written. written.body ≡ body_of command.now) }
    ensures reads_back { IfOk result (λ written. reading_of written.service written.name written.body ≡ Reading.Known command.now) }
{
    let name = name_of_command(command);
    let mut body = Bytes::new(alloc);
    put_arguments(alloc, command, &mut body)?;
    Ok(WrittenCommand {
        service: Text::from_str(alloc, name.service())?,
        name: Text::from_str(alloc, name.name())?,
        body,
    })
}
