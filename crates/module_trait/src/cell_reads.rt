ghost use Rattle.std.specs.Prelude.{◌≡◌, ◌+◌, ◌<◌, List, Some, length, slice_get};

use crate::steps::Steps;
use std::sync::ledger::Ledger;

/// A row of cells, which nothing but a counted read looks into.
pub trait CellReads {
    /// What a place has.
    type Cell;

    /// The cells.
    ghost cells: { Self → List Self.Cell };

    /// How many cells there are.
    fn len(&self) -> usize
        ensures { result ≡ length (cells self.now) };

    /// The cell at a place, in one step.
    fn at<L: Ledger>(&self, i: usize, steps: &mut Steps<L>) -> &Self::Cell
        requires { i < length (cells self.now) }
        ensures value { slice_get (cells self.now) i ≡ Some result.now }
        ensures cost { steps.new ≡ steps.old + 1 };
}
