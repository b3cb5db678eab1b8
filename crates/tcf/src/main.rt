//! The program `tcf`: the top call over the real files and standard output. It writes nothing to standard error.
#![tactic(auto)]

use std::alloc::AllocError;
use std::io::ErrorKind;
use std::process::ExitCode;
use std::{env, io};
use tcf_app::{Exit, report_wire_fault, tcf};
use tcf_outside::{RealFiles, RealSink};
use tcf_wires::RealWires;

/// The words after the program's name.
fn words(rt: &HostRuntime) -> io::Result<Vec<String>> {
    let mut words = Vec::new(rt.alloc());
    for word in env::args(rt)?.skip(1) {
        words.push(word).map_err(AllocError::from)?;
    }
    Ok(words)
}

/// The run of the top call. Where the system lends no means to wait there are no wires.
fn run(rt: &HostRuntime, words: &[String]) -> Exit {
    let mut files = RealFiles::new(rt, rt.alloc());
    let mut out = RealSink::new(io::writer(rt));
    match RealWires::new(rt, rt.alloc()) {
        Ok(mut wires) => tcf(rt.alloc(), words, &mut files, &mut out, &mut wires),
        Err(error) if error.kind() == ErrorKind::OutOfMemory => Exit::NoMemory,
        Err(_) => report_wire_fault(&mut out),
    }
}

fn main(rt: HostRuntime) -> ExitCode {
    let exit = match words(&rt) {
        Ok(words) => run(&rt, &words),
        Err(_) => Exit::NoMemory,
    };
    ExitCode::from(exit.status())
}
