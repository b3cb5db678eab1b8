//! The index of the list that will be, which is made before anything changes.
ghost use Rattle.std.specs.Prelude.{IfOk};
ghost use Rattle.breakpoints.specs.Changes.{with_flags, with_props};
ghost use Rattle.breakpoints.specs.Indexed.{Indexes};
ghost use Rattle.breakpoints.specs.Selecting.{unselected};

use super::Breakpoints;
use crate::index::{Index, add_changed, add_staying, add_switched, empty_index};
use crate::selection::Selection;
use std::alloc::AllocError;
use tcf_values::{BpProps, Text};

impl Breakpoints {
    /// The index when the chosen leave.
    #[tactic(auto, using(crate::proofs::Indexing::covers_none, crate::proofs::Indexing::covers_staying, crate::proofs::Indexing::covers_all))]
    pub(super) fn index_without(&self, leaving: Selection<'_>) -> Result<Index, AllocError>
        ensures { IfOk result (λ index. Indexes index (unselected leaving.entry self.now)) }
    {
        let alloc = *self.map.allocator();
        let mut index = empty_index(alloc);
        for row in self.map.values() {
            add_staying(alloc, &mut index, leaving, row)?;
        }
        Ok(index)
    }

    /// The index with these properties in the place of those of the same ID.
    #[tactic(auto, using(crate::proofs::Indexing::covers_none, crate::proofs::Indexing::covers_props, crate::proofs::Indexing::covers_all))]
    pub(super) fn index_with_props(&self, props: &BpProps) -> Result<Index, AllocError>
        ensures { IfOk result (λ index. Indexes index (with_props props.now self.now)) }
    {
        let alloc = *self.map.allocator();
        let mut index = empty_index(alloc);
        for row in self.map.values() {
            add_changed(alloc, &mut index, props, row)?;
        }
        Ok(index)
    }

    /// The index with the named ones enabled or disabled.
    #[tactic(auto, using(crate::proofs::Indexing::covers_none, crate::proofs::Indexing::covers_flags, crate::proofs::Indexing::covers_all))]
    pub(super) fn index_with_flags(&self, ids: &[Text], enabled: bool) -> Result<Index, AllocError>
        ensures { IfOk result (λ index. Indexes index (with_flags enabled ids.now self.now)) }
    {
        let alloc = *self.map.allocator();
        let mut index = empty_index(alloc);
        for row in self.map.values() {
            add_switched(alloc, &mut index, ids, enabled, row)?;
        }
        Ok(index)
    }
}
