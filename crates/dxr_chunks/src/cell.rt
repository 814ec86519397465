//! A direct cell: what a chunk's addresses lead to.
ghost use Rattle.std.specs.Prelude.{◌≡◌, ◌<◌};
ghost use Rattle.module_trait.specs.declared.nodes.TheConstants.{KEYS_MAX};

use crate::OutOfMemory;
use module_trait::KEYS_MAX;
use std::marker::Model;

/// What the addresses of a chunk have: one index, 0 for none, or a run of fragments, by its key.
#[derive(Clone, Copy)]
pub enum Cell {
    /// One index.
    Direct(u16),
    /// The run at a key.
    Run(usize),
}

/// A cell as it is kept, in 32 bits: a number that is a key keeps a run's cell, and one past the
/// keys an index.
#[derive(Drop)]
pub(crate) struct PackedCell {
    number: u32,
}

impl Model for PackedCell {
    ghost use Rattle.dxr_chunks.specs.declared.cell.Cell.{Cell};
    ghost use Rattle.dxr_chunks.specs.Cell.{cell_of};

    ghost Value = { Cell };

    ghost view = { λ c. cell_of c.number };
}

impl Clone for PackedCell {
    ghost use Rattle.std.specs.Prelude.{◌≡◌};

    ghost is_clone = { λ cell copy. copy ≡ cell };

    fn clone(&self) -> Result<PackedCell, OutOfMemory> {
        Ok(PackedCell {
            number: self.number,
        })
    }
}

impl PackedCell {
    /// Keeps an index.
    pub(crate) fn direct(index: u16) -> PackedCell
        ensures { result ≡ Cell.Direct index }
    {
        PackedCell {
            number: KEYS_MAX as u32 + u32::from(index),
        }
    }

    /// Keeps the key of a run.
    pub(crate) fn run(key: usize) -> PackedCell
        requires { key < KEYS_MAX }
        ensures { result ≡ Cell.Run key }
    {
        PackedCell { number: key as u32 }
    }

    /// The cell that is kept.
    pub(crate) fn cell(&self) -> Cell
        ensures { result ≡ self.now }
    {
        let number = self.number as usize;
        if number < KEYS_MAX {
            Cell::Run(number)
        } else {
            Cell::Direct((number - KEYS_MAX) as u16)
        }
    }
}
