//! Families of cases: a file of cases, or a folder of schedules with what `tcf chain` is to print of each.
use crate::bytes::{cut, number};
use crate::case::Case;
use crate::play::difference;
use crate::runs::runs_difference;
use crate::trouble::Trouble;
use std::alloc::Global;
use std::rt::Files;
use std::{fmt, fs, io};
use tcf_outside::Octets;

/// How many cases of a family were tried, and how many of them were as wanted.
#[derive(Clone, Copy)]
pub struct Tally {
    tried: u64,
    right: u64,
}

impl Tally {
    /// Whether all cases were as wanted.
    pub fn is_right(self) -> bool {
        self.right == self.tried
    }
}

impl fmt::Display for Tally {
    fn fmt<W: fmt::Write>(&self, f: &mut fmt::Formatter<W>) -> fmt::Result {
        let Tally { tried, right } = *self;
        write!(f, "{right} of {tried}")
    }
}

/// The bytes of a file of the folder.
fn read_bytes<R: Files + AllocGlobal>(rt: &R, folder: &str, name: &str) -> io::Result<Vec<u8>> {
    let path = format!(in rt.alloc(); "{folder}/{name}")?;
    fs::read(rt, path.as_str())
}

/// The text of a file of the folder.
pub fn read_text<R: Files + AllocGlobal>(rt: &R, folder: &str, name: &str) -> io::Result<String> {
    let path = format!(in rt.alloc(); "{folder}/{name}")?;
    fs::read_to_string(rt, path.as_str())
}

/// Counts a case of this name, and prints how it differs, if it does.
fn count_case<R: Print>(
    rt: &R,
    name: &str,
    difference: Result<Option<String>, Trouble>,
    tally: &mut Tally,
) -> Result<(), Trouble> {
    tally.tried = tally.tried.saturating_add(1);
    match difference {
        Ok(None) => tally.right = tally.right.saturating_add(1),
        Ok(Some(found)) => println!(rt; "{name}: {found}")?,
        Err(trouble) => println!(rt; "{name}: {trouble:?}")?,
    }
    Ok(())
}

/// Tries the cases of a file, of which each begins with a line `case` and its name.
fn try_cases<R: Files + Print + AllocGlobal>(
    rt: &R,
    folder: &str,
    name: &str,
) -> Result<Tally, Trouble> {
    let text = read_text(rt, folder, name)?;
    let mut tally = Tally { tried: 0, right: 0 };
    let mut parts = text.split("\ncase ");
    let _ = parts.next();
    for part in parts {
        let (name, lines) = part.split_once('\n').unwrap_or((part, ""));
        count_case(rt, name, runs_difference(rt.alloc(), lines), &mut tally)?;
    }
    Ok(tally)
}

/// The schedule of this name in the folder, with the status and the text that are wanted.
fn read_schedule<R: Files + AllocGlobal>(
    rt: &R,
    folder: &str,
    name: &str,
    status: &str,
) -> Result<Case, Trouble> {
    let schedule = read_bytes(rt, folder, name)?;
    let wanted = format!(in rt.alloc(); "{name}.stdout")?;
    let text = Octets::from_vec(read_bytes(rt, folder, wanted.as_str())?);
    Case::of_schedule(rt.alloc(), schedule.as_slice(), number(status)?, text)
}

/// How the run of a schedule differs.
fn schedule_difference(
    alloc: Global,
    case: Result<Case, Trouble>,
) -> Result<Option<String>, Trouble> {
    Ok(difference(alloc, case?)?)
}

/// Tries the schedules of a folder, whose file `status` has a line with a name and a status for each.
fn try_schedules<R: Files + Print + AllocGlobal>(
    rt: &R,
    folder: &str,
    name: &str,
) -> Result<Tally, Trouble> {
    let folder = format!(in rt.alloc(); "{folder}/{name}")?;
    let statuses = read_text(rt, folder.as_str(), "status")?;
    let mut tally = Tally { tried: 0, right: 0 };
    for line in statuses.lines() {
        let (name, status) = cut(line);
        let case = read_schedule(rt, folder.as_str(), name, status);
        count_case(rt, name, schedule_difference(rt.alloc(), case), &mut tally)?;
    }
    Ok(tally)
}

/// Tries the family of this form and this name.
pub fn try_family<R: Files + Print + AllocGlobal>(
    rt: &R,
    folder: &str,
    form: &str,
    name: &str,
) -> Result<Tally, Trouble> {
    match form {
        "cases" => try_cases(rt, folder, name),
        "schedules" => try_schedules(rt, folder, name),
        _ => Err(Trouble::Form),
    }
}
