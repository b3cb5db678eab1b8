//! The log of a client, and what it asks its cache.
ghost use Rattle.std.specs.Prelude.{◌≡◌, ◌++◌, ◌∷◌, [], IfOk, OnOk};
ghost use Rattle.cached_lines.specs.Asked.{IsAsked};
ghost use Rattle.tcf_text.specs.declared.log.LogLine.TheVariants.{Cached};
ghost use Rattle.client_log.specs.Cached.{cached_value};
ghost use Rattle.client_log.specs.Lessons.{lessons};

use crate::learning::{learn, note_place};
use crate::texts::cached_text;
use cached_lines::CachedWhat;
use knowledge::Knowledge;
use std::alloc::{AllocError, Global};
use std::marker::Model;
use tcf_outside::Duplicate;
use tcf_text::LogLine;

/// The log of a client, seen as its lines, beside the cache of what they teach. After want of memory no call but
/// `lines` is made.
#[derive(Drop)]
pub struct ClientLog {
    alloc: Global,
    lines: Vec<LogLine>,
    /// The places of the `sent` lines, so that of the command of each number.
    sent: Vec<usize>,
    cache: Knowledge,
    /// Whether memory was wanting in a call, so that the cache may have missed a line.
    spent: bool,
}

impl Model for ClientLog {
    ghost use Rattle.std.specs.Prelude.{List};
    ghost use Rattle.tcf_text.specs.declared.log.LogLine.{LogLine};

    ghost Value = { List LogLine };

    ghost use Rattle.std.specs.Prelude.{◌≡◌, false};
    ghost use Rattle.cache_learning.specs.Kept.{Keeps};
    ghost use Rattle.client_log.specs.Lessons.{lessons};
    ghost use Rattle.client_log.specs.Places.{sent_places};

    ghost view = { λ l. l.lines.items };

    ghost invariant = { λ l. l.spent ≡ false → (l.sent.items ≡ sent_places l.lines.items) × Keeps (lessons l.lines.items) l.cache };
}

impl ClientLog {
    /// An empty log, whose cache knows nothing.
    pub fn new(alloc: Global) -> Result<ClientLog, AllocError>
        ensures { IfOk result (λ log. log ≡ []) }
    {
        Ok(ClientLog {
            alloc,
            lines: Vec::new(alloc),
            sent: Vec::new(alloc),
            cache: Knowledge::new(alloc)?,
            spent: false,
        })
    }

    /// Puts a line into the log, and learns what it teaches.
    pub fn push(&mut self, line: LogLine) -> Result<(), AllocError>
        ensures { OnOk result (self.new ≡ self.old ++ line ∷ []) }
    {
        if self.spent {
            return Err(AllocError);
        }
        self.spent = true;
        learn(
            self.alloc,
            self.lines.as_slice(),
            self.sent.as_slice(),
            &mut self.cache,
            &line,
        )?;
        note_place(&mut self.sent, self.lines.len(), &line)?;
        self.lines.push(line)?;
        self.spent = false;
        Ok(())
    }

    /// Asks the cache, and puts a line into the log that says what it has. What is asked has a form.
    pub fn ask(&mut self, what: &CachedWhat) -> Result<(), AllocError>
        requires { IsAsked what.now }
        ensures { OnOk result (self.new ≡ self.old ++ Cached what.now (cached_value what.now (lessons self.old)) ∷ []) }
    {
        if self.spent {
            return Err(AllocError);
        }
        let value = cached_text(self.alloc, &self.cache, what)?;
        let what = what.copy()?;
        self.push(LogLine::Cached { what, value })
    }

    /// The lines, in order.
    pub fn lines(&self) -> &[LogLine]
        ensures { result.now ≡ self.now }
    {
        self.lines.as_slice()
    }
}
