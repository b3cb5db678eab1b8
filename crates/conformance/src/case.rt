//! A case: what the top call is given, and what it is to make of it. `docs/CONFORMANCE.md` has the format.
use crate::bytes::{cut, number, push_line};
use crate::trouble::Trouble;
use std::alloc::{AllocError, Global};
use std::mem;
use tcf_outside::{MemoryFiles, MemorySink, Octets};
use tcf_wires::{WireEvent, WireScript};

/// All bytes that a wire is to take.
#[derive(Drop)]
pub struct Taken {
    pub channel: u64,
    pub bytes: Octets,
}

/// What can be made to fail: a read of a file, a put of the output, or a call of the wires.
#[derive(Clone, Copy)]
pub enum Kind {
    Read,
    Put,
    Call,
}

impl Kind {
    fn named(name: &str) -> Result<Kind, Trouble> {
        match name {
            "read" => Ok(Kind::Read),
            "put" => Ok(Kind::Put),
            "call" => Ok(Kind::Call),
            _ => Err(Trouble::Form),
        }
    }
}

/// The statuses with which the run ends where all of a kind fail, each in a run of its own, in order.
#[derive(Drop)]
pub struct InTurn {
    pub kind: Kind,
    pub statuses: String,
}

/// What a run is to give: its status, its text, what some wires take, and, if that is said, which are shut and which
/// files are read, in order, and how many calls of the wires there are.
#[derive(Drop)]
pub struct Wanted {
    pub status: u64,
    pub text: Octets,
    pub taken: Vec<Taken>,
    pub shut: Option<String>,
    pub reads: Option<String>,
    pub calls: Option<u64>,
}

/// Whether the system gives what the top call is made over.
#[derive(Clone, Copy)]
pub enum Start {
    Whole,
    NoWires,
    NoMemory,
}

/// A run of the top call over objects in memory, and what is wanted of it. A case has one run, or one for each front of
/// a piece; and then those in which something fails in its turn.
#[derive(Drop)]
pub struct Case {
    pub runs: u64,
    pub in_turn: Vec<InTurn>,
    pub start: Start,
    pub words: Vec<String>,
    pub files: MemoryFiles,
    pub out: MemorySink,
    pub wires: WireScript,
    pub wanted: Wanted,
}

/// The place, counted from 0, of a read, a put or a call that is counted from 1.
fn place_of(text: &str) -> Result<u64, Trouble> {
    number(text)?.checked_sub(1).ok_or(Trouble::Form)
}

impl Case {
    /// A run of no words, without files and with nothing on the wires, that is to end well and to print nothing.
    fn new(alloc: Global) -> Self {
        Case {
            runs: 1,
            in_turn: Vec::new(alloc),
            start: Start::Whole,
            words: Vec::new(alloc),
            files: MemoryFiles::new(alloc),
            out: MemorySink::new(alloc),
            wires: WireScript::new(alloc),
            wanted: Wanted {
                status: 0,
                text: Octets::new(alloc),
                taken: Vec::new(alloc),
                shut: None,
                reads: None,
                calls: None,
            },
        }
    }

    /// `tcf chain` on this schedule, and what it is to give.
    pub fn of_schedule(
        alloc: Global,
        schedule: &[u8],
        status: u64,
        text: Octets,
    ) -> Result<Self, Trouble> {
        let mut case = Case::new(alloc);
        case.push_words("chain schedule")?;
        case.files.hold("schedule", schedule)?;
        case.wanted.status = status;
        case.wanted.text = text;
        Ok(case)
    }

    fn push_words(&mut self, text: &str) -> Result<(), Trouble> {
        let alloc = *self.words.allocator();
        for word in text.split_whitespace() {
            self.words.push(String::from_str(alloc, word)?)?;
        }
        Ok(())
    }

    /// Adds what a part says of the wires: an event, the answer of a connect, or how much a put takes.
    fn add_script(&mut self, kind: &str, rest: &str, bytes: Octets) -> Result<(), Trouble> {
        let event = match (kind, number(rest).ok()) {
            ("opened", Some(channel)) => WireEvent::Opened(channel),
            ("piece", Some(channel)) => WireEvent::Piece(channel, bytes),
            ("ended", Some(channel)) => WireEvent::Ended(channel),
            ("lost", Some(channel)) => WireEvent::Lost(channel),
            ("idle", None) => WireEvent::Idle,
            ("stop", None) => WireEvent::Stop,
            ("connect", answer) => return Ok(self.wires.answer(answer)?),
            ("room", Some(most)) => return Ok(self.wires.take_at_most(most as usize)?),
            _ => return Err(Trouble::Form),
        };
        Ok(self.wires.give(event)?)
    }

    /// Lets the first bytes come as one piece: of the first run so many as the range begins with, of each later one one
    /// more.
    fn add_front(&mut self, rest: &str, bytes: &Octets, run: u64) -> Result<(), Trouble> {
        let (channel, range) = cut(rest);
        let (least, most) = cut(range);
        let least = number(least)?;
        let more = number(most)?.checked_sub(least).ok_or(Trouble::Form)?;
        self.runs = more.saturating_add(1);
        let count = least.saturating_add(run) as usize;
        let front = bytes.as_slice().get(..count).ok_or(Trouble::Form)?;
        let piece = Octets::from_slice(bytes.allocator(), front)?;
        Ok(self.wires.give(WireEvent::Piece(number(channel)?, piece))?)
    }

    /// Makes what stands at this place, counted from 0, fail.
    pub fn fail_at(&mut self, kind: Kind, place: u64) -> Result<(), AllocError> {
        match kind {
            Kind::Read => self.files.fail_at(place as usize),
            Kind::Put => self.out.fail_at(place as usize),
            Kind::Call => self.wires.fail_at(place as usize),
        }
    }

    /// Makes the read, the put or the call of this number fail.
    fn add_fault(&mut self, rest: &str) -> Result<(), Trouble> {
        let (kind, number) = cut(rest);
        Ok(self.fail_at(Kind::named(kind)?, place_of(number)?)?)
    }

    /// Adds the statuses of the runs in which each of a kind fails in its turn.
    fn add_in_turn(&mut self, rest: &str) -> Result<(), Trouble> {
        let alloc = *self.words.allocator();
        let (kind, statuses) = cut(rest);
        let statuses = String::from_str(alloc, statuses)?;
        let kind = Kind::named(kind)?;
        Ok(self.in_turn.push(InTurn { kind, statuses })?)
    }

    /// Adds what a part says that is wanted.
    fn add_wanted(&mut self, kind: &str, rest: &str, bytes: Octets) -> Result<(), Trouble> {
        let alloc = *self.words.allocator();
        match kind {
            "status" => self.wanted.status = number(rest)?,
            "prints" => self.wanted.text = bytes,
            "taken" => {
                let channel = number(rest)?;
                self.wanted.taken.push(Taken { channel, bytes })?;
            }
            "shut" => self.wanted.shut = Some(String::from_str(alloc, rest)?),
            "reads" => self.wanted.reads = Some(String::from_str(alloc, rest)?),
            "calls" => self.wanted.calls = Some(number(rest)?),
            kind => self.add_script(kind, rest, bytes)?,
        }
        Ok(())
    }

    /// Adds what a part says to this run of the case: a line, and the bytes that the lines behind it give.
    fn add(&mut self, line: &str, bytes: Octets, run: u64) -> Result<(), Trouble> {
        match cut(line) {
            ("", _) => {}
            ("run", words) => self.push_words(words)?,
            ("file", name) => self.files.hold(name, bytes.as_slice())?,
            ("fails", what) => self.add_fault(what)?,
            ("each", what) => self.add_in_turn(what)?,
            ("front", range) => self.add_front(range, &bytes, run)?,
            ("puts", most) => self.out.take_at_most(number(most)? as usize),
            ("no", "wires") => self.start = Start::NoWires,
            ("no", "memory") => self.start = Start::NoMemory,
            (kind, rest) => self.add_wanted(kind, rest, bytes)?,
        }
        Ok(())
    }

    /// Adds what the lines of a case say to this one of its runs.
    fn add_lines(&mut self, text: &str, run: u64) -> Result<(), Trouble> {
        let alloc = *self.words.allocator();
        let mut part = "";
        let mut bytes = Octets::new(alloc);
        for line in text.lines() {
            if !push_line(line, &mut bytes)? {
                self.add(part, mem::replace(&mut bytes, Octets::new(alloc)), run)?;
                part = line;
            }
        }
        self.add(part, bytes, run)
    }
}

/// Reads the lines of a case, for this one of its runs, which are counted from 0.
pub fn read_case(alloc: Global, text: &str, run: u64) -> Result<Case, Trouble> {
    let mut case = Case::new(alloc);
    case.add_lines(text, run)?;
    Ok(case)
}
