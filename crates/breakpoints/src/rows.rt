//! The map that keeps the breakpoints, each under its ID, in the order of the list.
ghost use Rattle.std.specs.Prelude.{◌≡◌, ◌≤◌, ◌++◌, not, bytes_eq, filter, map, option_copied, IfOk, OnOk, OnErr, false};
ghost use Rattle.std.specs.List.{IsDistinct, list_any};
ghost use Rattle.indexmap.specs.IndexMap.{keys, spare, values};
ghost use Rattle.breakpoints.specs.Changes.{has_twice, is_switched, row_with_flag, row_with_props};
ghost use Rattle.breakpoints.specs.Keyed.{AreApart, AreKeyed, IsKept, with_values};
ghost use Rattle.breakpoints.specs.Rows.{row_of, rows_for};
ghost use Rattle.breakpoints.specs.Selecting.{selects};

use crate::counts::Counts;
use crate::selection::{Selection, is_among, selects};
use indexmap::IndexMap;
use std::alloc::{AllocError, Global};
use tcf_values::{BpProps, Duplicate, Props, Text};

/// A breakpoint beside the channel that owns it and its counts of hits.
#[derive(Drop)]
pub struct Placed {
    pub channel: u64,
    pub props: BpProps,
    pub counts: Counts,
}

/// The breakpoints, each under its ID.
pub(crate) type Rows = IndexMap<Vec<u8>, Placed>;

/// Whether one of these has this ID.
fn is_given(list: &[BpProps], id: &[u8]) -> bool
    ensures { result ≡ list_any (λ props. bytes_eq id.now props.id) list.now }
{
    list.iter().any(|props| id == props.id.as_bytes())
}

/// Whether an ID is given twice.
pub(crate) fn has_twice(list: &[BpProps]) -> bool
    ensures { result ≡ has_twice (map (λ props. props.id) list.now) }
{
    let mut rest = list;
    while let Some((first, later)) = rest.split_first() {
        if is_given(later, first.id.as_bytes()) {
            return true;
        }
        rest = later;
    }
    false
}

/// The same properties again.
pub(crate) fn copies(alloc: Global, list: &[BpProps]) -> Result<Props, AllocError>
    ensures { IfOk result (λ made. made ≡ list.now) }
{
    let mut made = Props::new(alloc);
    for props in list {
        made.push(props.copy()?)?;
    }
    Ok(made)
}

/// New breakpoints of a channel, each under its ID.
pub(crate) fn keyed(alloc: Global, channel: u64, list: &[BpProps]) -> Result<Rows, AllocError>
    requires { has_twice (map (λ props. props.id) list.now) ≡ false }
    ensures rows { IfOk result (λ rows. values rows ≡ rows_for channel list.now) }
    ensures keyed { IfOk result (λ rows. AreKeyed rows.entries) }
{
    let mut rows = IndexMap::with_capacity(alloc, list.len())?;
    for props in list {
        let id = Vec::from_slice(alloc, props.id.as_bytes())?;
        rows.insert(
            id,
            Placed {
                channel,
                props: props.copy()?,
                counts: Counts::new(alloc),
            },
        )?;
    }
    Ok(rows)
}

/// Takes out the chosen. The others keep their order, and no room is lost.
pub(crate) fn take_out(rows: &mut Rows, leaving: Selection<'_>)
    ensures entries { rows.new.entries ≡ filter (λ entry. not (selects leaving.entry entry.1)) rows.old.entries }
    ensures room { spare rows.old ≤ spare rows.new }
{
    rows.retain(
        |_id: &Vec<u8>, row: &mut Placed| -> bool
            ensures { (result ≡ not (selects leaving.entry row.old)) × (row.new ≡ row.old) }
        { !selects(leaving, row) },
    );
}

/// Puts `fresh` in the place of the chosen, last. Memory is taken before anything changes.
pub(crate) fn replace(
    rows: &mut Rows,
    leaving: Selection<'_>,
    mut fresh: Rows,
) -> Result<(), AllocError>
    requires { AreApart fresh.entries (filter (λ entry. not (selects leaving entry.1)) rows.old.entries) }
    ensures entries { OnOk result (rows.new.entries ≡ filter (λ entry. not (selects leaving.entry entry.1)) rows.old.entries ++ fresh.entries) }
    ensures unique { OnOk result (IsDistinct (λ x y. bytes_eq x.items y.items) (keys rows.new)) }
    ensures kept { OnErr result (rows.new.entries ≡ rows.old.entries) }
{
    rows.reserve(fresh.len())?;
    take_out(rows, leaving);
    rows.append(&mut fresh).unwrap();
    Ok(())
}

/// The breakpoint of this ID.
pub(crate) fn row_of<'a>(rows: &'a Rows, id: &[u8]) -> Option<&'a Placed>
    requires { IsKept rows.now.entries }
    ensures { option_copied result ≡ row_of id.now (values rows.now) }
{
    rows.get(id)
}

/// Puts the properties in the place of those of the same ID, where there are some, and drops the counts.
pub(crate) fn set_props(rows: &mut Rows, props: BpProps)
    requires { IsKept rows.old.entries }
    ensures { rows.new.entries ≡ with_values (row_with_props props) rows.old.entries }
{
    if let Some(row) = rows.get_mut(props.id.as_bytes()) {
        row.props = props;
        row.counts.clear();
    }
}

/// Whether a breakpoint is named and has another flag.
pub(crate) fn is_switched(row: &Placed, ids: &[Text], enabled: bool) -> bool
    ensures { result ≡ is_switched enabled ids.now row.now }
{
    is_among(ids, row.props.id.as_bytes()) && row.props.enabled != enabled
}

/// Enables or disables a breakpoint, where it is named. Where this changes it, its counts are dropped.
fn set_flag(row: &mut Placed, ids: &[Text], enabled: bool)
    ensures { row.new ≡ row_with_flag enabled ids.now row.old }
{
    if !is_switched(row, ids, enabled) {
        return;
    }
    row.props.enabled = enabled;
    row.counts.clear();
}

/// Enables or disables the named ones.
pub(crate) fn set_flags(rows: &mut Rows, ids: &[Text], enabled: bool)
    ensures { rows.new.entries ≡ with_values (row_with_flag enabled ids.now) rows.old.entries }
{
    for index in 0..rows.len() {
        set_flag(&mut rows[index], ids, enabled);
    }
}
