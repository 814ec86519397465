//! The slots of a group.
ghost use Rattle.std.specs.Prelude.{◌≡◌, ◌<◌, All, IfOk, length, map, slice_index_or};
ghost use Rattle.nhgrp_slots.specs.Spread.{HoldPicked, compiled, pick};

use crate::OutOfMemory;
use crate::paths::Paths;
use prefix_width::Nexthop;
use std::alloc::Global;
use std::marker::Model;
use std::sync::Arc;

/// A group's slots, seen as a list of 1 to 64 indexes. Copies share them.
#[derive(Drop)]
pub struct Slots {
    indexes: Arc<Vec<u16>>,
}

impl Model for Slots {
    ghost use Rattle.std.specs.Prelude.{List, ℕ, ◌≤◌, length};
    ghost use Rattle.std.specs.Arc.{arc_value};

    ghost Value = { List ℕ };

    ghost view = { λ s. (arc_value s.indexes).items };

    ghost invariant = { λ s. (1 ≤ length (arc_value s.indexes).items) × (length (arc_value s.indexes).items ≤ 64) };
}

impl Slots {
    ghost use Rattle.std.specs.Prelude.{◌≡◌, ◌≤◌, ◌%◌, IfOk, Some, length, slice_get};

    /// How many slots, 1 to 64.
    pub fn size(&self) -> u8
        ensures value { result ≡ length self.now }
        ensures least { 1 ≤ result }
        ensures most { result ≤ 64 }
    {
        self.indexes.len() as u8
    }

    /// The index in the flow's slot.
    pub fn pick(&self, flow: u32) -> u16
        ensures { slice_get self.now (flow % length self.now) ≡ Some result }
    {
        let size = u32::from(self.size());
        self.indexes[(flow % size) as usize]
    }

    /// Equal slots, shared with these: nothing is copied.
    pub fn copy(&self, alloc: Global) -> Result<Slots, OutOfMemory>
        ensures { IfOk result (λ s. s ≡ self.now) }
    {
        let _ = alloc;
        let indexes = Arc::try_clone(&self.indexes)?;
        Ok(Slots { indexes })
    }
}

/// The slots of a group: its layout, where each path stands as its index. There are as many
/// indexes as paths.
pub fn compile<const W: u32>(
    alloc: Global,
    paths: &Paths<W>,
    indexes: &[u16],
) -> Result<Slots, OutOfMemory>
    requires { length indexes.now ≡ length paths.now.paths }
    ensures slots { IfOk result (λ s. s ≡ compiled paths.now indexes.now) }
    ensures picked { IfOk result (λ s. HoldPicked paths.now indexes.now s) }
{
    let slots = compiled(alloc, paths.layout(), indexes)?;
    let indexes = Arc::new(alloc, slots)?;
    Ok(Slots { indexes })
}

/// The nexthop of a flow: that of the path in the flow's slot. It takes no memory.
pub fn pick<const W: u32>(paths: &Paths<W>, flow: u32) -> Option<Nexthop<W>>
    ensures { result ≡ pick paths.now flow }
{
    let layout = paths.layout();
    let slots = layout.len() as u32;
    let position = layout[(flow % slots) as usize];
    Some(*paths.path(position).nexthop())
}

/// The indexes at these positions.
fn compiled(alloc: Global, layout: &[u8], indexes: &[u16]) -> Result<Vec<u16>, OutOfMemory>
    requires { All (λ i. i < length indexes.now) layout.now }
    ensures { IfOk result (λ v. v.items ≡ map (λ i. slice_index_or indexes.now i 0) layout.now) }
{
    let mut slots = Vec::with_capacity(alloc, layout.len())?;
    for position in layout {
        slots.push(indexes[usize::from(*position)])?;
    }
    Ok(slots)
}
