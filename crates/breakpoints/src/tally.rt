//! The counts of the breakpoints that the map keeps.
ghost use Rattle.std.specs.Prelude.{◌≡◌, IfOk, OnOk, OnErr};
ghost use Rattle.std.specs.List.{list_any};
ghost use Rattle.indexmap.specs.IndexMap.{values};
ghost use Rattle.breakpoints.specs.Counting.{counts_of, is_over_named, row_among, row_with_counts, row_without};
ghost use Rattle.breakpoints.specs.Counts.{raised};
ghost use Rattle.breakpoints.specs.Keyed.{IsKept, with_values};

use crate::counts::Counts;
use crate::rows::{Rows, row_of};
use std::alloc::AllocError;
use tcf_values::Text;

/// The counts of the breakpoint of this ID, with that of a process raised.
fn raised(rows: &Rows, process: u32, id: &[u8]) -> Result<Counts, AllocError>
    requires { IsKept rows.now.entries }
    ensures { IfOk result (λ counts. counts ≡ raised process (counts_of id.now (values rows.now))) }
{
    match row_of(rows, id) {
        Some(row) => row.counts.raised(process),
        None => Counts::new(*rows.allocator()).raised(process),
    }
}

/// Puts counts in the place of those of the breakpoint of this ID, where it is there.
fn set_counts(rows: &mut Rows, id: &[u8], counts: Counts)
    requires { IsKept rows.old.entries }
    ensures { rows.new.entries ≡ with_values (row_with_counts id.now counts) rows.old.entries }
{
    if let Some(row) = rows.get_mut(id) {
        row.counts = counts;
    }
}

/// Raises the counts of the breakpoints of these IDs for a process. All memory is taken before the first of them changes.
pub(crate) fn raise(rows: &mut Rows, process: u32, ids: &[Text]) -> Result<(), AllocError>
    requires { IsKept rows.old.entries }
    ensures after { OnOk result (rows.new.entries ≡ with_values (row_among process ids.now) rows.old.entries) }
    ensures kept { OnErr result (rows.new.entries ≡ rows.old.entries) }
{
    let Some((first, rest)) = ids.split_first() else {
        return Ok(());
    };
    let counts = raised(rows, process, first.as_bytes())?;
    raise(rows, process, rest)?;
    set_counts(rows, first.as_bytes(), counts);
    Ok(())
}

/// Whether the count of the breakpoint of this ID is above its IgnoreCount.
fn is_over(rows: &Rows, process: u32, id: &[u8]) -> bool
    requires { IsKept rows.now.entries }
    ensures { result ≡ is_over_named process (values rows.now) id.now }
{
    match row_of(rows, id) {
        Some(row) => row.counts.of_process(process) > row.props.ignore.unwrap_or(0),
        None => false,
    }
}

/// Whether the count of one of the breakpoints of these IDs is above its IgnoreCount.
pub(crate) fn is_one_over(rows: &Rows, process: u32, ids: &[Text]) -> bool
    requires { IsKept rows.now.entries }
    ensures { result ≡ list_any (is_over_named process (values rows.now)) ids.now }
{
    ids.iter().any(|id| is_over(rows, process, id.as_bytes()))
}

/// Drops the counts of a process.
pub(crate) fn forget(rows: &mut Rows, process: u32)
    ensures { rows.new.entries ≡ with_values (row_without process) rows.old.entries }
{
    for index in 0..rows.len() {
        rows[index].counts.forget(process);
    }
}
