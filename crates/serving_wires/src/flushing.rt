//! Wire by wire, what is queued is put, and what is kept of wires that were shut is forgotten.
ghost use Rattle.std.specs.Prelude.{◌≡◌, filter, OnErr, OnOk};
ghost use Rattle.serving_wires.specs.Calls.{Makes};
ghost use Rattle.serving_wires.specs.Flushing.{FlushesAll, FlushesKept, GivesUpAll, is_kept, is_shut_at, its_own};
ghost use Rattle.serving_wires.specs.Outbox.{Flushes, IsGivenUp};

use crate::outbox::Outbox;
use crate::roster::Roster;
use std::alloc::AllocError;
use tcf_wires::Wires;

/// What is kept of a wire, with its outbox.
pub trait OnWire: Drop {
    ghost use Rattle.serving_wires.specs.Flushing.{HasOutbox};

    ghost has: { HasOutbox Self };

    /// Puts what is queued, and shuts the wire where it is due.
    fn flush_wire<W: Wires>(&mut self, wires: &mut W) -> Result<(), AllocError>
        ensures kept { OnOk result (self.new ≡ has.with_outbox (has.outbox self.new) self.old) }
        ensures ok { OnOk result (Makes (Flushes (has.outbox self.old) (has.outbox self.new))
            (W.seen wires.old) (W.seen wires.new)) }
        ensures err { OnErr result (Makes (IsGivenUp (has.outbox self.old))
            (W.seen wires.old) (W.seen wires.new)) };

    /// Whether the wire was shut.
    fn is_wire_shut(&self) -> bool
        ensures { result ≡ (has.outbox self.now).is_shut };
}

impl OnWire for Outbox {
    ghost has = { its_own };

    fn flush_wire<W: Wires>(&mut self, wires: &mut W) -> Result<(), AllocError> {
        self.flush(wires)
    }

    fn is_wire_shut(&self) -> bool {
        self.is_shut()
    }
}

/// Puts what is queued, wire by wire in the order of the rows, and shuts and forgets those that are done with.
pub fn flush_rows<T: OnWire, W: Wires>(
    rows: &mut Roster<T>,
    wires: &mut W,
) -> Result<(), AllocError>
    ensures ok { OnOk result (Makes (FlushesKept T.has rows.old rows.new)
        (W.seen wires.old) (W.seen wires.new)) }
    ensures err { OnErr result (Makes (GivesUpAll T.has rows.old) (W.seen wires.old) (W.seen wires.new)) }
{
    flush_all(rows, wires)?;
    forget_shut(rows);
    Ok(())
}

/// Puts what is queued, and shuts where it is due.
fn flush_all<T: OnWire, W: Wires>(rows: &mut Roster<T>, wires: &mut W) -> Result<(), AllocError>
    ensures ok { OnOk result (Makes (FlushesAll T.has rows.old rows.new)
        (W.seen wires.old) (W.seen wires.new)) }
    ensures err { OnErr result (Makes (GivesUpAll T.has rows.old) (W.seen wires.old) (W.seen wires.new)) }
{
    let count = rows.len();
    for place in 0..count {
        if let Some(item) = rows.get_mut(place) {
            item.flush_wire(wires)?;
        }
    }
    Ok(())
}

/// Forgets the rows of wires that were shut, from the last one on.
fn forget_shut<T: OnWire>(rows: &mut Roster<T>)
    ensures { rows.new ≡ filter (is_kept T.has) rows.old }
{
    let count = rows.len();
    for done in 0..count {
        let place = count - 1 - done;
        if is_shut_at(rows, place) {
            rows.remove(place);
        }
    }
}

/// Whether the wire of the row at this place was shut.
fn is_shut_at<T: OnWire>(rows: &Roster<T>, place: usize) -> bool
    ensures { result ≡ is_shut_at T.has place rows.now }
{
    match rows.get(place) {
        Some(item) => item.is_wire_shut(),
        None => false,
    }
}
