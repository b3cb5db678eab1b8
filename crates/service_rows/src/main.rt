//! Plays rows of the services, which stand in files, and tells of each that gives something else than is wanted. The
//! words of the program are the files' names. Each file ends with a line that counts its rows.
//!
//! A row is a line, and behind ` => ` what it is wanted to give. Further lines that it is wanted to give follow it, each
//! behind `=> `. A line with nothing wanted is played, and not compared. Empty lines and those that begin with `#` are
//! skipped. Words are separated by blanks; those of data are parts, of which `-` is the empty one, `%` with two
//! hexadecimal digits is a byte, and one that begins with `!` has no zero behind it. What stands behind ` # ` is a remark.
//!
//! | row | what it gives |
//! |---|---|
//! | `command SERVICE NAME DATA` | what the data of a command is read as |
//! | `class SERVICE NAME DATA` | whether the command is changing, storable or neither |
//! | `answer SERVICE NAME DATA : DATA` | what the data of an answer to a command is read as |
//! | `event SERVICE NAME DATA` | what the data of an event is read as |
//! | `id TEXT` | the process, the thread or the register that a text spells |
//! | `part KIND INDEX DATA` | what a part is read as: `text`, `whole`, `number`, `flag`, `blob`, `value`; of `texts` how many |
//! | `code NUMBER` | the text of an error's code |
//! | `decode WORD` | the instruction that a word is |
//! | `memory HEX` | nothing; a new memory of a processor with these bytes at 0 |
//! | `write ADDRESS HEX` | whether the bytes lie inside memory, to which they are written |
//! | `byte ADDRESS` | the byte there |
//! | `step PC WORD xN=VALUE ..` | what the word comes to, with these registers: the pc and the registers that change |
//! | `target NAME=HEX ..` | nothing; a new target with these images. `HEX*N` is so many times the same bytes |
//! | `exec CHANNEL SERVICE NAME DATA` | the events, the progress and the answer of a command on the target |
//! | `tick THREAD` | the events of an instruction of a thread; `idle` where it doesn't run |
//! | `close CHANNEL` | the events of a channel that goes |
//! | `running` | the threads that run |
//! | `cache` | nothing; a new cache of a client, and a new one of a value-add |
//! | `hear SERVICE NAME DATA` | nothing; both take an event |
//! | `learn SERVICE NAME DATA : DATA` | nothing; both take an answer to a command |
//! | `known KIND ..` | what the client's cache has |
//! | `reply SERVICE NAME DATA` | what the value-add's answers; `none` where it would ask |
#![tactic(auto)]

mod caches;
mod parts;
mod processor;
mod rows;
mod tables;
mod target;
mod words;

use anyhow::Result;
use caches::Caches;
use processor::Processor;
use rows::{Board, Rows};
use std::io::Write;
use std::{env, fs, io};
use tables::Tables;
use target::Target;

/// Plays the rows of a file, and tells what was found.
fn play<B: Board>(rt: &HostRuntime, name: &str, text: &str, board: B) -> Result<()> {
    let mut rows = Rows::new(rt.alloc(), board);
    for (place, line) in text.lines().enumerate() {
        rows.take(place, line)?;
    }
    io::writer(rt).write_all(rows.report(name)?)?;
    Ok(())
}

/// Plays the rows of a file on what they are for, which its name says.
fn play_file(rt: &HostRuntime, name: &str) -> Result<()> {
    let text = fs::read_to_string(rt, name)?;
    let text = text.as_str();
    match name {
        "processor.rows" => play(rt, name, text, Processor::new(rt.alloc())?),
        "target.rows" => play(rt, name, text, Target::new(rt.alloc())?),
        "caches.rows" => play(rt, name, text, Caches::new(rt.alloc())?),
        _ => play(rt, name, text, Tables::new(rt.alloc())),
    }
}

fn main(rt: HostRuntime) -> Result<()> {
    for name in env::args(&rt)?.skip(1) {
        play_file(&rt, name.as_str())?;
    }
    Ok(())
}
