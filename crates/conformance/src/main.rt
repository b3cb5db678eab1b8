//! Tries the top call of `tcf` on cases whose outcomes were worked out apart from it: schedules, streams, scripts,
//! what comes over wires, and what fails. It prints a line for each case that isn't as wanted, and one for each family
//! of cases.
#![tactic(auto)]

mod bytes;
mod case;
mod family;
mod play;
mod runs;
mod trouble;

use bytes::cut;
use family::{read_text, try_family};
use std::process::ExitCode;
use std::rt::{Env, Files};
use std::{env, io};
use trouble::Trouble;

/// The folder of the cases: the first word behind the program's name, or the folder that it runs in.
fn folder<R: Env + AllocGlobal>(rt: &R) -> io::Result<String> {
    match env::args(rt)?.nth(1) {
        Some(word) => Ok(word),
        None => Ok(String::from_str(rt.alloc(), ".")?),
    }
}

/// Tries each family that the index names, and tells whether all their cases are as wanted.
fn try_all<R: Files + Print + AllocGlobal>(rt: &R, folder: &str) -> Result<bool, Trouble> {
    let index = read_text(rt, folder, "index")?;
    let mut is_right = true;
    for line in index.lines() {
        let (form, name) = cut(line);
        let tally = try_family(rt, folder, form, name)?;
        println!(rt; "{name}: {tally} as wanted")?;
        is_right = is_right && tally.is_right();
    }
    Ok(is_right)
}

fn main(rt: HostRuntime) -> Result<ExitCode, Trouble> {
    let folder = folder(&rt)?;
    let is_right = try_all(&rt, folder.as_str())?;
    Ok(ExitCode::from(if is_right { 0 } else { 1 }))
}
