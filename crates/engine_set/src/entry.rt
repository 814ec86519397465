//! What one index stands for.
ghost use Rattle.std.specs.Prelude.{◌≡◌, Some};
ghost use Rattle.engine_set.specs.Entry.{entry_index, place_for, place_number, through};

use nhgrp_slots::Slots;

/// What an index of a version stands for.
#[derive(Drop)]
pub enum Entry {
    /// A nexthop.
    Nexthop { index: u16 },
    /// A group, with the index of a nexthop in each slot.
    Group { index: u16, slots: Slots },
}

impl Entry {
    /// The index.
    pub fn index(&self) -> u16
        ensures { result ≡ entry_index self.now }
    {
        match self {
            Entry::Nexthop { index } => *index,
            Entry::Group { index, slots: _ } => *index,
        }
    }

    /// The nexthop's index for a flow: the one in the flow's slot of a group.
    pub fn pick(&self, flow: u32) -> u16
        ensures { through flow self.now ≡ Some result }
    {
        match self {
            Entry::Nexthop { index } => *index,
            Entry::Group { index: _, slots } => slots.pick(flow),
        }
    }
}

/// Where the entry of an index stands among the entries.
#[derive(Clone, Copy)]
pub enum Place {
    /// The index has no entry.
    Vacant,
    /// A nexthop's entry, which need not be read for a lookup.
    Nexthop(u16),
    /// A group's entry.
    Group(u16),
}

impl Place {
    /// The place of an entry that stands at `k`.
    pub(crate) fn of(entry: &Entry, k: u16) -> Place
        ensures { result ≡ place_for entry.now k }
    {
        match entry {
            Entry::Nexthop { .. } => Place::Nexthop(k),
            Entry::Group { .. } => Place::Group(k),
        }
    }

    /// Where the entry stands, if there is one.
    pub(crate) fn number(&self) -> Option<u16>
        ensures { result ≡ place_number self.now }
    {
        match self {
            Place::Vacant => None,
            Place::Nexthop(k) => Some(*k),
            Place::Group(k) => Some(*k),
        }
    }
}
