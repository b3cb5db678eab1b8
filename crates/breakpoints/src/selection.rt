//! Which breakpoints a call takes out or tells.
ghost use Rattle.std.specs.Prelude.{◌≡◌};
ghost use Rattle.breakpoints.specs.Rows.{is_among};
ghost use Rattle.breakpoints.specs.Selecting.{selects};

use crate::rows::Placed;
use tcf_values::Text;

/// A choice of breakpoints.
#[derive(Clone, Copy)]
pub(crate) enum Selection<'a> {
    Nothing,
    Everything,
    /// Those that belong to a channel.
    OwnedBy(u64),
    /// Those with one of these IDs.
    Named(&'a [Text]),
}

/// Whether this ID is one of these.
pub(crate) fn is_among(ids: &[Text], id: &[u8]) -> bool
    ensures { result ≡ is_among ids.now id.now }
{
    ids.iter().any(|other| id == other.as_bytes())
}

/// Whether this breakpoint is one of the chosen.
pub(crate) fn selects(selection: Selection<'_>, row: &Placed) -> bool
    ensures { result ≡ selects selection.entry row.now }
{
    match selection {
        Selection::Nothing => false,
        Selection::Everything => true,
        Selection::OwnedBy(channel) => row.channel == channel,
        Selection::Named(ids) => is_among(ids, row.props.id.as_bytes()),
    }
}
