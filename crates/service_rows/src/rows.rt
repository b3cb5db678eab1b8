//! The rows of a file, and what is told of them.
use anyhow::Result;
use std::alloc::Global;
use tcf_outside::Octets;

/// What rows are played on.
pub trait Board: Drop {
    /// Plays a row, and puts what it gives, which may be no line.
    fn play(&mut self, row: &str, out: &mut Octets) -> Result<()>;
}

/// What a row gave, and what is wanted of it, line by line.
#[derive(Drop)]
struct Row {
    line: usize,
    given: Octets,
    wanted: Octets,
}

/// The rows of a file so far.
#[derive(Drop)]
pub struct Rows<B> {
    alloc: Global,
    board: B,
    row: Option<Row>,
    /// How many were compared, and how many of them gave what is wanted.
    all: u64,
    right: u64,
    /// What is told of the others.
    report: Octets,
}

/// Puts a line of what a row is wanted to give.
fn put_line(line: &str, out: &mut Octets) -> Result<()> {
    out.extend(line.as_bytes())?;
    out.push(b'\n')?;
    Ok(())
}

impl<B: Board> Rows<B> {
    pub fn new(alloc: Global, board: B) -> Rows<B> {
        Rows {
            alloc,
            board,
            row: None,
            all: 0,
            right: 0,
            report: Octets::new(alloc),
        }
    }

    /// Takes the line at a place, counted from 0.
    pub fn take(&mut self, place: usize, line: &str) -> Result<()> {
        if line.is_empty() || line.starts_with('#') {
            return Ok(());
        }
        match line.strip_prefix("=> ") {
            Some(wanted) => self.want(wanted),
            None => self.begin(place, line),
        }
    }

    /// One more line is wanted of the row.
    fn want(&mut self, wanted: &str) -> Result<()> {
        match &mut self.row {
            Some(row) => put_line(wanted, &mut row.wanted),
            None => Ok(()),
        }
    }

    /// Plays the next row.
    fn begin(&mut self, place: usize, line: &str) -> Result<()> {
        self.compare()?;
        let (line, _) = line.split_once(" # ").unwrap_or((line, ""));
        let (played, wanted) = line.split_once(" => ").unwrap_or((line, ""));
        let mut row = Row {
            line: place.saturating_add(1),
            given: Octets::new(self.alloc),
            wanted: Octets::new(self.alloc),
        };
        self.board.play(played, &mut row.given)?;
        if row.given.is_empty() {
            put_line("nothing", &mut row.given)?;
        }
        if !wanted.is_empty() {
            put_line(wanted, &mut row.wanted)?;
        }
        self.row = Some(row);
        Ok(())
    }

    /// Compares what the last row gave, where something is wanted of it.
    fn compare(&mut self) -> Result<()> {
        match self.row.take() {
            Some(row) if !row.wanted.is_empty() => self.count(&row),
            _ => Ok(()),
        }
    }

    fn count(&mut self, row: &Row) -> Result<()> {
        self.all = self.all.saturating_add(1);
        if row.given.as_slice() == row.wanted.as_slice() {
            self.right = self.right.saturating_add(1);
            return Ok(());
        }
        let line = row.line;
        put_line(
            format!(in self.alloc; "line {line} gives")?.as_str(),
            &mut self.report,
        )?;
        self.report.extend(row.given.as_slice())?;
        put_line("in place of", &mut self.report)?;
        self.report.extend(row.wanted.as_slice())?;
        Ok(())
    }

    /// What is told of a file of this name: of each row that gives something else than is wanted, and how many give that.
    pub fn report(&mut self, name: &str) -> Result<&[u8]> {
        self.compare()?;
        let (right, all) = (self.right, self.all);
        let line = format!(in self.alloc; "{name}: {right} of {all} as wanted")?;
        put_line(line.as_str(), &mut self.report)?;
        Ok(self.report.as_slice())
    }
}
