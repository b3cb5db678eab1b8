//! Hit tests that count, and counts that are dropped.
ghost use Rattle.std.specs.Prelude.{◌≡◌, ◌++◌, IfOk, OnOk, OnErr, map};
ghost use Rattle.breakpoints.specs.Counting.{counted, forgotten, hit_rows, listed, stops_at};
ghost use Rattle.breakpoints.specs.Status.{hits_of};
ghost use Rattle.breakpoints.specs.Statuses.{statuses_of};

use super::Breakpoints;
use super::statuses::counted_status;
use crate::tally::{forget, is_one_over, raise};
use std::alloc::AllocError;
use tcf_values::{Duplicate, Events, Props, Text, Texts};

/// What a thread hits where it stands.
#[derive(Debug, Drop)]
pub struct Hits {
    /// The IDs of the breakpoints that are hit, in the order of the list.
    pub ids: Texts,
    /// Whether one of them has a count above its IgnoreCount.
    pub stops: bool,
}

impl Breakpoints {
    /// Raises the counts of the breakpoints that a thread of this process hits where it stands at `pc`, and tells which
    /// these are, and whether one of them stops the thread then; none where the process isn't attached. At 4,294,967,295 a
    /// count stays. It looks at no breakpoint that stands elsewhere. Where memory is wanting, nothing changes.
    pub fn count(&mut self, process: u32, attached: bool, pc: u32) -> Result<Hits, AllocError>
        ensures ids { IfOk result (λ hits. hits.ids ≡ hits_of process attached pc self.old) }
        ensures stops { IfOk result (λ hits. hits.stops ≡ stops_at process attached pc self.old) }
        ensures after { OnOk result (self.new ≡ counted process attached pc self.old) }
        ensures listed { IfOk result (λ hits. listed hits.ids self.new ≡ hit_rows process attached pc self.new) }
        ensures kept { OnErr result (self.new ≡ self.old) }
    {
        let ids = self.hits(process, attached, pc)?;
        if ids.is_empty() {
            return Ok(Hits { ids, stops: false });
        }
        raise(&mut self.map, process, ids.as_slice())?;
        let stops = is_one_over(&self.map, process, ids.as_slice());
        Ok(Hits { ids, stops })
    }

    /// Drops the counts of a process, and takes no memory.
    pub fn forget(&mut self, process: u32)
        ensures { self.new ≡ forgotten process self.old }
    {
        forget(&mut self.map, process);
    }

    /// Puts last the events that tell the status of each breakpoint of these IDs, in their order, where these processes are
    /// attached, by their numbers in order. After want of memory some of them are there.
    pub fn add_statuses_of(
        &self,
        ids: &[Text],
        attached: &[u32],
        events: &mut Events,
    ) -> Result<(), AllocError>
        ensures { OnOk result (events.new ≡ events.old ++ statuses_of attached.now (listed ids.now self.now)) }
    {
        let alloc = *self.map.allocator();
        for id in ids {
            if let Some(row) = self.row(id.as_bytes()) {
                events.push(counted_status(alloc, &row.props, &row.counts, attached)?)?;
            }
        }
        Ok(())
    }

    /// The properties of the breakpoints of these IDs, in their order.
    pub fn props_of(&self, ids: &[Text]) -> Result<Props, AllocError>
        ensures { IfOk result (λ list. list ≡ map (λ row. row.props) (listed ids.now self.now)) }
    {
        let mut list = Props::new(*self.map.allocator());
        for id in ids {
            if let Some(row) = self.row(id.as_bytes()) {
                list.push(row.props.copy()?)?;
            }
        }
        Ok(list)
    }
}
