//! The run of a case, and how it differs from what is wanted.
use crate::bytes::shown;
use crate::case::{Case, Start, Taken, Wanted};
use std::alloc::{AllocError, Global};
use std::fmt::Write;
use tcf_app::{Exit, report_wire_fault, tcf};
use tcf_outside::{MemoryFiles, Octets};
use tcf_wires::{WireCall, WireScript};

/// Where the first line begins that differs, in both texts.
fn differing_line(got: &[u8], wanted: &[u8]) -> usize {
    let mut line = 0usize;
    for place in 0..got.len().min(wanted.len()) {
        if got[place] != wanted[place] {
            break;
        }
        if got[place] == b'\n' {
            line = place + 1;
        }
    }
    line
}

/// How two texts differ, by the first line that does.
fn text_difference(alloc: Global, got: &[u8], wanted: &[u8]) -> Result<Option<String>, AllocError> {
    if got == wanted {
        return Ok(None);
    }
    let line = differing_line(got, wanted);
    let got = shown(alloc, got.get(line..).unwrap_or(&[]))?;
    let wanted = shown(alloc, wanted.get(line..).unwrap_or(&[]))?;
    Ok(Some(format!(in alloc; "got {got}, wanted {wanted}")?))
}

/// How the bytes that a wire took differ.
fn taken_difference(
    alloc: Global,
    wires: &WireScript,
    wanted: &[Taken],
) -> Result<Option<String>, AllocError> {
    for Taken { channel, bytes } in wanted {
        let got = wires.taken(*channel)?;
        if let Some(found) = text_difference(alloc, got.as_slice(), bytes.as_slice())? {
            return Ok(Some(format!(in alloc; "on wire {channel}: {found}")?));
        }
    }
    Ok(None)
}

/// The wires that these calls shut, in order, as a case writes them.
fn shut_by(alloc: Global, calls: &[WireCall]) -> Result<String, AllocError> {
    let mut text = String::new(alloc);
    for call in calls {
        if let WireCall::Shut(channel) = call {
            let gap = if text.is_empty() { "" } else { " " };
            write!(text, "{gap}{channel}")?;
        }
    }
    Ok(text)
}

/// The names of the files that were read, in order, as a case writes them.
fn read_by(alloc: Global, names: &[Octets]) -> Result<String, AllocError> {
    let mut text = String::new(alloc);
    for name in names {
        let gap = if text.is_empty() { "" } else { " " };
        let name = shown(alloc, name.as_slice())?;
        write!(text, "{gap}{name}")?;
    }
    Ok(text)
}

/// How a list of wires or of names differs, if what is wanted of it is said.
fn list_difference(
    alloc: Global,
    got: &str,
    wanted: Option<&String>,
    what: &str,
) -> Result<Option<String>, AllocError> {
    match wanted {
        Some(wanted) if got != wanted.as_str() => Ok(Some(format!(in alloc;
            "got {got} {what}, wanted {wanted}"
        )?)),
        _ => Ok(None),
    }
}

/// How a number differs, if what is wanted of it is said.
fn count_difference(
    alloc: Global,
    got: u64,
    wanted: Option<u64>,
    what: &str,
) -> Result<Option<String>, AllocError> {
    match wanted {
        Some(wanted) if got != wanted => Ok(Some(format!(in alloc;
            "got {what} {got}, wanted {wanted}"
        )?)),
        _ => Ok(None),
    }
}

/// How what was done with the files and the wires differs.
fn outside_difference(
    alloc: Global,
    files: &MemoryFiles,
    wires: &WireScript,
    wanted: &Wanted,
) -> Result<Option<String>, AllocError> {
    if let Some(found) = taken_difference(alloc, wires, wanted.taken.as_slice())? {
        return Ok(Some(found));
    }
    let shut = shut_by(alloc, wires.calls())?;
    if let Some(found) = list_difference(alloc, shut.as_str(), wanted.shut.as_ref(), "shut")? {
        return Ok(Some(found));
    }
    let read = read_by(alloc, files.names())?;
    if let Some(found) = list_difference(alloc, read.as_str(), wanted.reads.as_ref(), "read")? {
        return Ok(Some(found));
    }
    count_difference(alloc, wires.calls().len() as u64, wanted.calls, "calls")
}

/// Plays the case.
fn play(alloc: Global, case: &mut Case) -> Exit {
    match case.start {
        Start::Whole => tcf(
            alloc,
            &case.words,
            &mut case.files,
            &mut case.out,
            &mut case.wires,
        ),
        Start::NoWires => report_wire_fault(&mut case.out),
        Start::NoMemory => Exit::NoMemory,
    }
}

/// How the status of a run differs.
fn status_difference(alloc: Global, exit: Exit, wanted: u64) -> Result<Option<String>, AllocError> {
    count_difference(alloc, u64::from(exit.status()), Some(wanted), "status")
}

/// How a case that was played differs, by the first thing that isn't as wanted.
fn played_difference(alloc: Global, case: &Case, exit: Exit) -> Result<Option<String>, AllocError> {
    let wanted = &case.wanted;
    if let Some(found) = text_difference(alloc, case.out.told(), wanted.text.as_slice())? {
        return Ok(Some(found));
    }
    if let Some(found) = status_difference(alloc, exit, wanted.status)? {
        return Ok(Some(found));
    }
    outside_difference(alloc, &case.files, &case.wires, wanted)
}

/// Plays the case, and tells the first thing that isn't as wanted.
pub fn difference(alloc: Global, mut case: Case) -> Result<Option<String>, AllocError> {
    let exit = play(alloc, &mut case);
    played_difference(alloc, &case, exit)
}

/// How the bytes that a wire took are no front of those that it takes where nothing fails.
fn front_difference(
    alloc: Global,
    wires: &WireScript,
    whole: &[Taken],
) -> Result<Option<String>, AllocError> {
    for Taken { channel, bytes } in whole {
        let got = wires.taken(*channel)?;
        if !bytes.as_slice().starts_with(got.as_slice()) {
            let got = shown(alloc, got.as_slice())?;
            return Ok(Some(format!(in alloc; "on wire {channel}: got {got}, no front")?));
        }
    }
    Ok(None)
}

/// The text of a run with this exit in which something failed: the one line of a refusal, of the whole text as much as
/// was put of this one where a put failed, and else all of it.
fn text_with<'a>(exit: Exit, got: &'a [u8], whole: &'a [u8]) -> &'a [u8] {
    match exit {
        Exit::FileFault => b"file fault\n",
        Exit::WireFault => b"wire fault\n",
        Exit::SinkFault if whole.starts_with(got) => got,
        _ => whole,
    }
}

/// How a case differs in which something failed when it was played, where it is to end with this status.
fn failed_difference(
    alloc: Global,
    case: &Case,
    exit: Exit,
    status: u64,
) -> Result<Option<String>, AllocError> {
    let got = case.out.told();
    let text = text_with(exit, got, case.wanted.text.as_slice());
    if let Some(found) = text_difference(alloc, got, text)? {
        return Ok(Some(found));
    }
    if let Some(found) = status_difference(alloc, exit, status)? {
        return Ok(Some(found));
    }
    front_difference(alloc, &case.wires, case.wanted.taken.as_slice())
}

/// Plays the case, in which something fails that doesn't where it gives what is wanted of it. Tells how it isn't as it
/// is to be then: it ends with this status, prints the line of a refusal alone or else a front of the text, and each
/// wire takes a front of its bytes.
pub fn failing_difference(
    alloc: Global,
    mut case: Case,
    status: u64,
) -> Result<Option<String>, AllocError> {
    let exit = play(alloc, &mut case);
    failed_difference(alloc, &case, exit, status)
}
