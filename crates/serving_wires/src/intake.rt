//! What came for one end of a channel and waits, in order.
ghost use Rattle.std.specs.Prelude.{◌≡◌, ◌++◌, ◌∷◌, [], is_some, OnErr, OnOk};
ghost use Rattle.serving_wires.specs.Intake.{left_for, next_for};

use std::alloc::{AllocError, Global};
use std::collections::VecDeque;
use std::marker::Model;
use tcf_outside::Octets;

/// The number of messages in an inbox from which on a piece waits.
const FULL: usize = 200;

/// What came for an end.
#[derive(Debug, Drop)]
pub enum Came {
    /// Bytes.
    Piece(Octets),
    /// Nothing more comes, in good order or since the connection broke.
    End,
}

/// What came for one end and wasn't given to it yet. A piece is given only where the end's inbox holds fewer than 200
/// messages; else it waits, and what comes behind it waits with it.
#[derive(Drop)]
pub struct Intake {
    waiting: VecDeque<Came>,
}

impl Model for Intake {
    ghost use Rattle.std.specs.Prelude.{List};
    ghost use Rattle.serving_wires.specs.declared.intake.Came.{Came as HasCome};

    ghost Value = { List HasCome };

    ghost view = { λ i. i.waiting.items };
}

impl Intake {
    pub fn new(alloc: Global) -> Self
        ensures { result ≡ [] }
    {
        Intake {
            waiting: VecDeque::new(alloc),
        }
    }

    /// Lets this wait behind what is there.
    pub fn push(&mut self, came: Came) -> Result<(), AllocError>
        ensures ok { OnOk result (self.new ≡ self.old ++ came ∷ []) }
        ensures err { OnErr result (self.new ≡ self.old) }
    {
        self.waiting.push_back(came)?;
        Ok(())
    }

    /// Whether something that waits can be given to an end whose inbox holds so many messages.
    pub fn has_next(&self, inbox: usize) -> bool
        ensures { result ≡ is_some (next_for inbox self.now) }
    {
        match self.waiting.front() {
            None => false,
            Some(Came::Piece(_)) => inbox < FULL,
            Some(Came::End) => true,
        }
    }

    /// Takes what is to be given next to an end whose inbox holds so many messages; `None` where nothing waits, or a
    /// piece still has to.
    pub fn next(&mut self, inbox: usize) -> Option<Came>
        ensures next { result ≡ next_for inbox self.old }
        ensures left { self.new ≡ left_for inbox self.old }
    {
        match self.waiting.front()? {
            Came::Piece(_) if inbox >= FULL => None,
            _ => self.waiting.pop_front(),
        }
    }
}
