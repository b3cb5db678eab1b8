//! All runs of a case: one for each front of a piece that it speaks of, and those in which something fails in its turn.
use crate::bytes::number;
use crate::case::{InTurn, Kind, read_case};
use crate::play::{difference, failing_difference};
use crate::trouble::Trouble;
use std::alloc::Global;
use std::mem;

/// How a run differs behind the first one, of so many.
fn later_difference(alloc: Global, lines: &str, runs: u64) -> Result<Option<String>, Trouble> {
    for run in 1..runs {
        if let Some(found) = difference(alloc, read_case(alloc, lines, run)?)? {
            return Ok(Some(format!(in alloc; "run {run}: {found}")?));
        }
    }
    Ok(None)
}

/// How the run differs in which the one of this kind at this place fails.
fn failing(
    alloc: Global,
    lines: &str,
    kind: Kind,
    place: u64,
    status: u64,
) -> Result<Option<String>, Trouble> {
    let mut case = read_case(alloc, lines, 0)?;
    case.fail_at(kind, place)?;
    let number = place.saturating_add(1);
    match failing_difference(alloc, case, status)? {
        Some(found) => Ok(Some(format!(in alloc; "failing {number}: {found}")?)),
        None => Ok(None),
    }
}

/// How a run differs in which one of this kind fails, each in its turn. Behind the last one there is none that could.
fn in_turn_difference(
    alloc: Global,
    lines: &str,
    in_turn: &InTurn,
) -> Result<Option<String>, Trouble> {
    let mut place = 0u64;
    for status in in_turn.statuses.split_whitespace() {
        if let Some(found) = failing(alloc, lines, in_turn.kind, place, number(status)?)? {
            return Ok(Some(found));
        }
        place = place.saturating_add(1);
    }
    let mut case = read_case(alloc, lines, 0)?;
    case.fail_at(in_turn.kind, place)?;
    Ok(difference(alloc, case)?)
}

/// How the runs differ in which something fails.
fn failures_difference(
    alloc: Global,
    lines: &str,
    failures: &[InTurn],
) -> Result<Option<String>, Trouble> {
    for in_turn in failures {
        if let Some(found) = in_turn_difference(alloc, lines, in_turn)? {
            return Ok(Some(found));
        }
    }
    Ok(None)
}

/// Plays all runs of the case that these lines say, and tells the first thing that isn't as wanted.
pub fn runs_difference(alloc: Global, lines: &str) -> Result<Option<String>, Trouble> {
    let mut case = read_case(alloc, lines, 0)?;
    let runs = case.runs;
    let failures = mem::replace(&mut case.in_turn, Vec::new(alloc));
    if let Some(found) = difference(alloc, case)? {
        return Ok(Some(found));
    }
    if let Some(found) = later_difference(alloc, lines, runs)? {
        return Ok(Some(found));
    }
    failures_difference(alloc, lines, failures.as_slice())
}
