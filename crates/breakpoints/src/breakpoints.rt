//! The list of breakpoints, each under its ID.
ghost use Rattle.std.specs.Prelude.{◌≡◌, ◌++◌, ◌∷◌, [], ◌||◌, filter, length, not, None, IfNone, IfOk, OnOk, OnErr, IsTrue, option_copied, is_some, if◌then◌else◌};
ghost use Rattle.breakpoints.specs.Changes.{after, changes_list, clashes, done, has_no_place, is_overfull, is_refused, lacks, switched, with_flag, with_flags};
ghost use Rattle.breakpoints.specs.Indexed.{ids_at, is_named_for};
ghost use Rattle.breakpoints.specs.Rows.{IsOrderly, ids_of, is_there, others, owned_by, props_of, row_of, rows_for};
ghost use Rattle.breakpoints.specs.Selecting.{selected, selects, unselected};
ghost use Rattle.breakpoints.specs.Status.{hits_of, status_of};

mod counting;
mod indexing;
mod order;
mod statuses;

use crate::index::{Index, add_list, empty_index};
use crate::instance::{instances_of, is_for};
use crate::rows::{
    Placed, Rows, copies, has_twice, is_switched, keyed, replace, set_flags, set_props, take_out,
};
use crate::selection::{Selection, selects};
pub use counting::Hits;
use indexmap::IndexMap;
pub use statuses::status_event;
use std::alloc::{AllocError, Global};
use std::marker::Model;
use std::slice;
use tcf_values::{BpProps, BpStatus, Command, Duplicate, Props, Text, Texts};

/// How many breakpoints there can be.
const MOST: usize = 256;

/// The code of every refusal.
const OTHER: u8 = 1;

/// What a command made of the list.
#[derive(Debug, Drop)]
pub enum BpDone {
    /// It is refused with this code, and nothing has changed.
    Failed(u8),
    /// It is done.
    Changed {
        /// The IDs that were taken out, in the order that they had.
        removed: Texts,
        /// The new ones, in the order given.
        added: Props,
        /// Those that were changed, as they are now.
        changed: Props,
    },
}

/// The breakpoints of all channels. Contracts see the list of them, each beside the channel that owns it and its counts of
/// hits, in order.
#[derive(Drop)]
pub struct Breakpoints {
    map: Rows,
    index: Index,
}

impl Model for Breakpoints {
    ghost use Rattle.std.specs.Prelude.{List};
    ghost use Rattle.indexmap.specs.IndexMap.{values};
    ghost use Rattle.breakpoints.specs.Placed.{Placed};
    ghost use Rattle.breakpoints.specs.Indexed.{IsIndexed};

    ghost Value = { List Placed };

    ghost view = { λ b. values b.map };

    ghost invariant = { λ b. IsIndexed b.map.entries b.index };
}

impl Breakpoints {
    /// Makes a list without breakpoints, which takes no memory yet.
    pub fn new(alloc: Global) -> Breakpoints
        ensures { result ≡ [] }
    {
        Breakpoints {
            map: IndexMap::new(alloc),
            index: empty_index(alloc),
        }
    }

    /// Executes a command that changes the list. It is refused with the code 1 where it gives an ID that is there or
    /// that it gives twice, where there were more than 256 breakpoints, and where it names one that isn't there, and this
    /// whatever the memory. A refused command, and one for which memory is wanting, changes nothing.
    pub fn apply(&mut self, channel: u64, command: &Command) -> Result<BpDone, AllocError>
        requires { IsTrue (changes_list command.now) }
        ensures refused { IsTrue (is_refused channel command.now self.old) → result ≡ Ok (BpDone.Failed 1) }
        ensures done { IfOk result (λ told. told ≡ done channel command.now self.old) }
        ensures after { OnOk result (self.new ≡ after channel command.now self.old) }
        ensures kept { OnErr result (self.new ≡ self.old) }
    {
        match command {
            Command::BpSet { list } => {
                self.put(channel, Selection::OwnedBy(channel), list.as_slice())
            }
            Command::BpAdd { props } => self.add(channel, props),
            Command::BpChange { props } => self.change(props),
            Command::BpEnable { ids } => self.switch(ids.as_slice(), true),
            Command::BpDisable { ids } => self.switch(ids.as_slice(), false),
            Command::BpRemove { ids } => self.remove(ids.as_slice()),
            _ => unreachable!(),
        }
    }

    /// Takes out the breakpoints of a channel that has gone, and tells their IDs in the order of the list. Where memory
    /// is wanting, nothing changes.
    pub fn gone(&mut self, channel: u64) -> Result<Texts, AllocError>
        ensures told { IfOk result (λ ids. ids ≡ ids_of (owned_by channel self.old)) }
        ensures after { OnOk result (self.new ≡ others channel self.old) }
        ensures kept { OnErr result (self.new ≡ self.old) }
    {
        let ids = self.ids_of(Selection::OwnedBy(channel))?;
        let index = self.index_without(Selection::OwnedBy(channel))?;
        take_out(&mut self.map, Selection::OwnedBy(channel));
        self.index = index;
        Ok(ids)
    }

    /// The properties of the breakpoint of this ID; `None` exactly where it isn't there.
    pub fn props(&self, id: &[u8]) -> Option<&BpProps>
        ensures value { option_copied result ≡ props_of id.now self.now }
        ensures found { is_some result ≡ is_there id.now self.now }
        ensures orderly { IsOrderly self.now }
    {
        let row = self.row(id)?;
        Some(&row.props)
    }

    /// The breakpoint of this ID; `None` exactly where it isn't there.
    fn row(&self, id: &[u8]) -> Option<&Placed>
        ensures value { option_copied result ≡ row_of id.now self.now }
        ensures found { is_some result ≡ is_there id.now self.now }
        ensures orderly { IsOrderly self.now }
    {
        self.map.get(id)
    }

    /// The IDs of all breakpoints, in the order of the list.
    pub fn ids(&self) -> Result<Texts, AllocError>
        ensures ids { IfOk result (λ ids. ids ≡ ids_of self.now) }
        ensures orderly { IsOrderly self.now }
    {
        self.ids_of(Selection::Everything)
    }

    /// The status of the breakpoint of this ID, where these processes are attached, by their numbers in order; `None`
    /// exactly where it isn't there, and then whatever the memory.
    pub fn status(&self, id: &[u8], attached: &[u32]) -> Result<Option<BpStatus>, AllocError>
        ensures value { IfOk result (λ status. status ≡ status_of id.now attached.now self.now) }
        ensures found { IfOk result (λ status. is_some status ≡ is_there id.now self.now) }
        ensures missing { IfNone (status_of id.now attached.now self.now) (result ≡ Ok None) }
    {
        match self.row(id) {
            Some(row) => Ok(Some(BpStatus {
                instances: instances_of(*self.map.allocator(), &row.props, &row.counts, attached)?,
            })),
            None => Ok(None),
        }
    }

    /// The IDs of the breakpoints that a thread of this process hits where it stands at `pc`, in the order of the
    /// list; none where the process isn't attached. It looks at no breakpoint that stands elsewhere.
    #[tactic(auto, using(crate::proofs::Hitting::hits_there, crate::proofs::Hitting::no_hits))]
    pub fn hits(&self, process: u32, attached: bool, pc: u32) -> Result<Texts, AllocError>
        ensures { IfOk result (λ ids. ids ≡ hits_of process attached pc self.now) }
    {
        if !attached {
            return Ok(Texts::new(*self.map.allocator()));
        }
        match self.at(pc) {
            Some(ids) => self.those_for(process, ids.as_slice()),
            None => Ok(Texts::new(*self.map.allocator())),
        }
    }

    /// The IDs of the enabled breakpoints whose location is this address, for whichever processes they are, in the order
    /// of the list; `None` exactly where there is none. Takes no memory.
    pub fn at(&self, address: u32) -> Option<&Texts>
        ensures ids { option_copied result ≡ ids_at address self.now }
        ensures orderly { IsOrderly self.now }
    {
        self.index.get(&address)
    }

    /// Whether the breakpoint of this ID is for a process.
    fn is_named_for(&self, process: u32, id: &[u8]) -> bool
        ensures { result ≡ is_named_for process self.now id.now }
    {
        match self.props(id) {
            Some(props) => is_for(&props.contexts, process),
            None => false,
        }
    }

    /// The IDs of those that are for a process.
    fn those_for(&self, process: u32, ids: &[Text]) -> Result<Texts, AllocError>
        ensures { IfOk result (λ made. made ≡ filter (is_named_for process self.now) ids.now) }
    {
        let mut made = Texts::new(*self.map.allocator());
        for id in ids {
            if self.is_named_for(process, id.as_bytes()) {
                made.push(id.copy()?)?;
            }
        }
        Ok(made)
    }

    #[tactic(auto, using(crate::proofs::Lookup::key_there))]
    fn is_there(&self, id: &[u8]) -> bool
        ensures { result ≡ is_there id.now self.now }
    {
        self.map.contains_key(id)
    }

    /// Whether one of the IDs isn't there.
    fn lacks(&self, ids: &[Text]) -> bool
        ensures { result ≡ lacks ids.now self.now }
    {
        ids.iter().any(|id| !self.is_there(id.as_bytes()))
    }

    /// Whether a breakpoint of this ID is left when the chosen leave.
    fn stays(&self, id: &[u8], leaving: Selection<'_>) -> bool
        ensures { result ≡ is_there id.now (unselected leaving.entry self.now) }
    {
        match self.map.get(id) {
            Some(row) => !selects(leaving, row),
            None => false,
        }
    }

    /// Whether one of the IDs is taken when the chosen leave.
    fn clashes(&self, leaving: Selection<'_>, list: &[BpProps]) -> bool
        ensures { result ≡ clashes list.now (unselected leaving.entry self.now) }
    {
        list.iter()
            .any(|props| self.stays(props.id.as_bytes(), leaving))
    }

    /// How many are chosen.
    fn number_of(&self, selection: Selection<'_>) -> usize
        ensures { result ≡ length (selected selection.entry self.now) }
    {
        self.map
            .values()
            .filter(|row| selects(selection, row))
            .count()
    }

    /// Whether, when so many chosen leave, there are too many then, or one of the IDs is taken.
    fn is_crowded(&self, leaving: Selection<'_>, count: usize, list: &[BpProps]) -> bool
        requires { count ≡ length (selected leaving self.now) }
        ensures { result ≡ (is_overfull list.now (unselected leaving.entry self.now) || clashes list.now (unselected leaving.entry self.now)) }
    {
        let staying = self.map.len() - count;
        list.len() > MOST - staying || self.clashes(leaving, list)
    }

    /// Whether new breakpoints have no place when the chosen leave: there are too many then, or one of the IDs is taken
    /// or given twice.
    #[tactic(auto, using(crate::proofs::Fresh::place_turned))]
    fn has_no_place(&self, leaving: Selection<'_>, list: &[BpProps]) -> bool
        ensures { result ≡ has_no_place list.now (unselected leaving.entry self.now) }
    {
        self.is_crowded(leaving, self.number_of(leaving), list) || has_twice(list)
    }

    /// The IDs of the chosen, in the order of the list.
    fn ids_of(&self, selection: Selection<'_>) -> Result<Texts, AllocError>
        ensures ids { IfOk result (λ ids. ids ≡ ids_of (selected selection.entry self.now)) }
        ensures orderly { IsOrderly self.now }
    {
        let mut ids = Texts::new(*self.map.allocator());
        for row in self.map.values() {
            if selects(selection, row) {
                ids.push(row.props.id.copy()?)?;
            }
        }
        Ok(ids)
    }

    /// The named ones whose flag is another, with this flag.
    fn switched(&self, ids: &[Text], enabled: bool) -> Result<Props, AllocError>
        ensures { IfOk result (λ list. list ≡ switched enabled ids.now self.now) }
    {
        let mut list = Props::new(*self.map.allocator());
        for row in self.map.values() {
            if is_switched(row, ids, enabled) {
                list.push(with_flag(&row.props, enabled)?)?;
            }
        }
        Ok(list)
    }

    /// Puts new breakpoints of a channel in the place of the chosen, last in the list.
    fn put(
        &mut self,
        channel: u64,
        leaving: Selection<'_>,
        list: &[BpProps],
    ) -> Result<BpDone, AllocError>
        ensures refused { IsTrue (has_no_place list.now (unselected leaving.entry self.old)) → result ≡ Ok (BpDone.Failed 1) }
        ensures done { IfOk result (λ told. told ≡ (if has_no_place list.now (unselected leaving.entry self.old) then BpDone.Failed 1
            else BpDone.Changed (ids_of (selected leaving.entry self.old)) list.now [])) }
        ensures after { OnOk result (self.new ≡ (if has_no_place list.now (unselected leaving.entry self.old) then self.old
            else unselected leaving.entry self.old ++ rows_for channel list.now)) }
        ensures kept { OnErr result (self.new ≡ self.old) }
    {
        if self.has_no_place(leaving, list) {
            return Ok(BpDone::Failed(OTHER));
        }
        let alloc = *self.map.allocator();
        let removed = self.ids_of(leaving)?;
        let added = copies(alloc, list)?;
        let fresh = keyed(alloc, channel, list)?;
        let mut index = self.index_without(leaving)?;
        add_list(alloc, &mut index, list)?;
        replace(&mut self.map, leaving, fresh)?;
        self.index = index;
        Ok(BpDone::Changed {
            removed,
            added,
            changed: Props::new(alloc),
        })
    }

    fn add(&mut self, channel: u64, props: &BpProps) -> Result<BpDone, AllocError>
        ensures refused { IsTrue (has_no_place (props.now ∷ []) self.old) → result ≡ Ok (BpDone.Failed 1) }
        ensures done { IfOk result (λ told. told ≡ done channel (Command.BpAdd props.now) self.old) }
        ensures after { OnOk result (self.new ≡ after channel (Command.BpAdd props.now) self.old) }
        ensures kept { OnErr result (self.new ≡ self.old) }
    {
        self.put(channel, Selection::Nothing, slice::from_ref(props))
    }

    fn change(&mut self, props: &BpProps) -> Result<BpDone, AllocError>
        ensures refused { IsTrue (not (is_there props.now.id self.old)) → result ≡ Ok (BpDone.Failed 1) }
        ensures done { IfOk result (λ told. told ≡ done 0 (Command.BpChange props.now) self.old) }
        ensures after { OnOk result (self.new ≡ after 0 (Command.BpChange props.now) self.old) }
        ensures kept { OnErr result (self.new ≡ self.old) }
    {
        if !self.is_there(props.id.as_bytes()) {
            return Ok(BpDone::Failed(OTHER));
        }
        let alloc = *self.map.allocator();
        let stored = props.copy()?;
        let changed = copies(alloc, slice::from_ref(props))?;
        let index = self.index_with_props(props)?;
        set_props(&mut self.map, stored);
        self.index = index;
        Ok(BpDone::Changed {
            removed: Texts::new(alloc),
            added: Props::new(alloc),
            changed,
        })
    }

    /// Enables or disables the named ones.
    fn switch(&mut self, ids: &[Text], enabled: bool) -> Result<BpDone, AllocError>
        ensures refused { IsTrue (lacks ids.now self.old) → result ≡ Ok (BpDone.Failed 1) }
        ensures done { IfOk result (λ told. told ≡ (if lacks ids.now self.old then BpDone.Failed 1
            else BpDone.Changed [] [] (switched enabled ids.now self.old))) }
        ensures after { OnOk result (self.new ≡ (if lacks ids.now self.old then self.old
            else with_flags enabled ids.now self.old)) }
        ensures kept { OnErr result (self.new ≡ self.old) }
    {
        if self.lacks(ids) {
            return Ok(BpDone::Failed(OTHER));
        }
        let alloc = *self.map.allocator();
        let changed = self.switched(ids, enabled)?;
        let index = self.index_with_flags(ids, enabled)?;
        set_flags(&mut self.map, ids, enabled);
        self.index = index;
        Ok(BpDone::Changed {
            removed: Texts::new(alloc),
            added: Props::new(alloc),
            changed,
        })
    }

    fn remove(&mut self, ids: &[Text]) -> Result<BpDone, AllocError>
        ensures refused { IsTrue (lacks ids.now self.old) → result ≡ Ok (BpDone.Failed 1) }
        ensures done { IfOk result (λ told. told ≡ done 0 (Command.BpRemove ids.now) self.old) }
        ensures after { OnOk result (self.new ≡ after 0 (Command.BpRemove ids.now) self.old) }
        ensures kept { OnErr result (self.new ≡ self.old) }
    {
        if self.lacks(ids) {
            return Ok(BpDone::Failed(OTHER));
        }
        let alloc = *self.map.allocator();
        let removed = self.ids_of(Selection::Named(ids))?;
        let index = self.index_without(Selection::Named(ids))?;
        take_out(&mut self.map, Selection::Named(ids));
        self.index = index;
        Ok(BpDone::Changed {
            removed,
            added: Props::new(alloc),
            changed: Props::new(alloc),
        })
    }
}

/// These properties with another flag.
fn with_flag(props: &BpProps, enabled: bool) -> Result<BpProps, AllocError>
    ensures { IfOk result (λ made. made ≡ with_flag enabled props.now) }
{
    let mut made = props.copy()?;
    made.enabled = enabled;
    Ok(made)
}
