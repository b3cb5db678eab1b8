//! One direction of a hop: messages go in, and bytes come out in parts.
ghost use Rattle.std.specs.Prelude.{◌≡◌, ◌++◌, ◌∷◌, [], ◌==◌, length, IfOk, OnOk};
ghost use Rattle.channel_core.specs.Wire.{end_of_stream};
ghost use Rattle.chain_route.specs.Lane.{arriving, next_part, staying};

use channel_core::Outgoing;
use std::alloc::{AllocError, Global};
use std::collections::VecDeque;
use std::marker::Model;
use stream_escape::mark_eos;
use tcf_outside::Octets;

/// One direction of a hop. Contracts see what is in flight, the oldest message first, without what has arrived of it.
#[derive(Drop)]
pub struct Lane {
    alloc: Global,
    flight: VecDeque<Outgoing>,
    /// How many bytes of the first message in flight have arrived.
    came: usize,
}

impl Model for Lane {
    ghost use Rattle.std.specs.Prelude.{List};
    ghost use Rattle.channel_core.specs.declared.held.Outgoing.{Outgoing};

    ghost Value = { List Outgoing };

    ghost use Rattle.chain_route.specs.Lane.{IsWithin, without_front};

    ghost view = { λ l. without_front l.came l.flight.items };

    ghost invariant = { λ l. IsWithin l.came l.flight.items };
}

impl Lane {
    /// Nothing is in flight.
    pub fn new(alloc: Global) -> Self
        ensures { result ≡ [] }
    {
        Lane {
            alloc,
            flight: VecDeque::new(alloc),
            came: 0,
        }
    }

    /// The message is in flight, behind what is.
    pub fn queue(&mut self, out: Outgoing) -> Result<(), AllocError>
        ensures { OnOk result (self.new ≡ self.old ++ out ∷ []) }
    {
        self.flight.push_back(out)?;
        Ok(())
    }

    /// The end of the stream is in flight, behind what is.
    pub fn queue_end(&mut self) -> Result<(), AllocError>
        ensures { OnOk result (self.new ≡ self.old ++ end_of_stream ∷ []) }
    {
        let mut bytes = Octets::new(self.alloc);
        mark_eos(&mut bytes)?;
        self.queue(Outgoing { bytes, mark: None })
    }

    /// Whether nothing is in flight.
    pub fn is_empty(&self) -> bool
        ensures { result ≡ (length self.now == 0) }
    {
        self.flight.is_empty()
    }

    /// What is in flight is lost.
    pub fn clear(&mut self)
        ensures { self.new ≡ [] }
    {
        self.flight.clear();
        self.came = 0;
    }

    /// The next so many bytes arrive, or as many as there are: one part for each message that they belong to.
    #[tactic(auto, using(crate::proofs::Parts::next_part_is, crate::proofs::Parts::no_part_is))]
    pub fn arrive(&mut self, count: usize) -> Result<Vec<Outgoing>, AllocError>
        ensures parts { IfOk result (λ parts. parts.items ≡ arriving count self.old) }
        ensures stays { OnOk result (self.new ≡ staying count self.old) }
    {
        let mut parts = Vec::new(self.alloc);
        let mut left = count;
        while left > 0 {
            let Some(part) = self.next_part(left)? else {
                return Ok(parts);
            };
            left -= part.bytes.len();
            parts.push(part)?;
        }
        Ok(parts)
    }

    /// What comes first, in at most so many bytes.
    fn next_part(&mut self, most: usize) -> Result<Option<Outgoing>, AllocError>
        ensures { IfOk result (λ part. (part, self.new) ≡ next_part most self.old) }
    {
        let Some(first) = self.flight.front() else {
            return Ok(None);
        };
        let rest = first.bytes.len() - self.came;
        let taken = rest.min(most);
        let part = Outgoing {
            bytes: Octets::from_slice(
                self.alloc,
                &first.bytes.as_slice()[self.came..self.came + taken],
            )?,
            mark: first.mark,
        };
        if taken == rest {
            self.came = 0;
            self.flight.pop_front();
        } else {
            self.came += taken;
        }
        Ok(Some(part))
    }
}
