//! The index of the enabled breakpoints by the address that their location says.
ghost use Rattle.std.specs.Prelude.{◌≡◌, ◌∷◌, [], ℕ, option_and_then, OnOk};
ghost use Rattle.breakpoints.specs.Address.{address_of};
ghost use Rattle.breakpoints.specs.Changes.{with_flag, with_flags, with_props};
ghost use Rattle.breakpoints.specs.Indexed.{AddsId, AddsProps, AddsRows, Indexes};
ghost use Rattle.breakpoints.specs.Rows.{rows_for};
ghost use Rattle.breakpoints.specs.Selecting.{unselected};

use crate::instance::address_of;
use crate::rows::{Placed, is_switched};
use crate::selection::{Selection, selects};
use std::alloc::{AllocError, Global};
use std::collections::BTreeMap;
use tcf_values::{BpProps, Duplicate, Text, Texts};

/// The IDs of the breakpoints at each address, in the order of the list.
pub(crate) type Index = BTreeMap<u32, Texts>;

/// The index of a list without breakpoints.
pub(crate) fn empty_index(alloc: Global) -> Index
    ensures { Indexes result [] }
{
    BTreeMap::new(alloc)
}

/// The address that a breakpoint's location says.
fn said_address(props: &BpProps) -> Option<u32>
    ensures { result ≡ option_and_then address_of props.now.location }
{
    match &props.location {
        Some(location) => address_of(location.as_bytes()),
        None => None,
    }
}

fn add_id(alloc: Global, index: &mut Index, address: u32, id: &Text) -> Result<(), AllocError>
    ensures { OnOk result (AddsId index.old index.new address id.now) }
{
    let id = id.copy()?;
    if let Some(ids) = index.get_mut(&address) {
        ids.push(id)?;
        return Ok(());
    }
    let mut ids = Texts::new(alloc);
    ids.push(id)?;
    index.insert(address, ids)?;
    Ok(())
}

/// Adds a breakpoint behind those that are there, with this flag.
#[tactic(auto, using(crate::proofs::Indexing::added, crate::proofs::Indexing::skipped_disabled, crate::proofs::Indexing::skipped_nowhere))]
fn add_row(
    alloc: Global,
    index: &mut Index,
    props: &BpProps,
    enabled: bool,
) -> Result<(), AllocError>
    ensures { OnOk result (AddsProps index.old index.new (with_flag enabled props.now)) }
{
    if !enabled {
        return Ok(());
    }
    match said_address(props) {
        Some(address) => add_id(alloc, index, address, &props.id),
        None => Ok(()),
    }
}

/// Adds new breakpoints behind those that are there.
#[tactic(auto, using(crate::proofs::Indexing::none_added, crate::proofs::Indexing::list_added))]
pub(crate) fn add_list(alloc: Global, index: &mut Index, list: &[BpProps]) -> Result<(), AllocError>
    ensures { OnOk result ((channel : ℕ) → AddsRows index.old index.new (rows_for channel list.now)) }
{
    for props in list {
        add_row(alloc, index, props, props.enabled)?;
    }
    Ok(())
}

/// Adds a breakpoint, where it doesn't leave.
#[tactic(auto, using(crate::proofs::Indexing::staying_row, crate::proofs::Indexing::leaving_row))]
pub(crate) fn add_staying(
    alloc: Global,
    index: &mut Index,
    leaving: Selection<'_>,
    row: &Placed,
) -> Result<(), AllocError>
    ensures { OnOk result (AddsRows index.old index.new (unselected leaving.entry (row.now ∷ []))) }
{
    if selects(leaving, row) {
        return Ok(());
    }
    add_row(alloc, index, &row.props, row.props.enabled)
}

/// Adds a breakpoint, with these properties where they are those of its ID.
#[tactic(auto, using(crate::proofs::Indexing::changed_row, crate::proofs::Indexing::unchanged_row))]
pub(crate) fn add_changed(
    alloc: Global,
    index: &mut Index,
    props: &BpProps,
    row: &Placed,
) -> Result<(), AllocError>
    ensures { OnOk result (AddsRows index.old index.new (with_props props.now (row.now ∷ []))) }
{
    let id = props.id.as_bytes();
    if id == row.props.id.as_bytes() {
        add_row(alloc, index, props, props.enabled)
    } else {
        add_row(alloc, index, &row.props, row.props.enabled)
    }
}

/// Adds a breakpoint, with this flag where it is named and has another.
#[tactic(auto, using(crate::proofs::Indexing::switched_row, crate::proofs::Indexing::unswitched_row))]
pub(crate) fn add_switched(
    alloc: Global,
    index: &mut Index,
    ids: &[Text],
    enabled: bool,
    row: &Placed,
) -> Result<(), AllocError>
    ensures { OnOk result (AddsRows index.old index.new (with_flags enabled ids.now (row.now ∷ []))) }
{
    if is_switched(row, ids, enabled) {
        add_row(alloc, index, &row.props, enabled)
    } else {
        add_row(alloc, index, &row.props, row.props.enabled)
    }
}
