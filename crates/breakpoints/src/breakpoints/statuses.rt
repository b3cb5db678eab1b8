//! The status of breakpoints, as events.
ghost use Rattle.std.specs.Prelude.{◌≡◌, ◌++◌, IfOk, OnOk};
ghost use Rattle.breakpoints.specs.Statuses.{counted_status, status_event, statuses_of};

use super::Breakpoints;
use crate::counts::Counts;
use crate::instance::instances_of;
use std::alloc::{AllocError, Global};
use tcf_values::{BpProps, BpStatus, Duplicate, EventData, Events};

impl Breakpoints {
    /// Puts last the events that tell the status of every breakpoint, in the order of the list, where these processes
    /// are attached, by their numbers in order. After want of memory some of them are there.
    pub fn add_statuses(&self, attached: &[u32], events: &mut Events) -> Result<(), AllocError>
        ensures { OnOk result (events.new ≡ events.old ++ statuses_of attached.now self.now) }
    {
        let alloc = *self.map.allocator();
        for row in self.map.values() {
            events.push(counted_status(alloc, &row.props, &row.counts, attached)?)?;
        }
        Ok(())
    }
}

/// The event that tells the status of a breakpoint with these properties and counts.
pub(super) fn counted_status(
    alloc: Global,
    props: &BpProps,
    counts: &Counts,
    attached: &[u32],
) -> Result<EventData, AllocError>
    ensures { IfOk result (λ event. event ≡ counted_status attached.now props.now counts.now) }
{
    Ok(EventData::BpStatusIs {
        id: props.id.copy()?,
        status: BpStatus {
            instances: instances_of(alloc, props, counts, attached)?,
        },
    })
}

/// The event that tells the status of a breakpoint with these properties that nothing has hit, where these processes are
/// attached, by their numbers in order.
pub fn status_event(
    alloc: Global,
    props: &BpProps,
    attached: &[u32],
) -> Result<EventData, AllocError>
    ensures { IfOk result (λ event. event ≡ status_event attached.now props.now) }
{
    counted_status(alloc, props, &Counts::new(alloc), attached)
}
