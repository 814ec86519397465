//! Lists of indexes with their numbers.

use std::marker::Model;

/// The numbers that a version's indexes name. Contracts see it as the list of its pairs.
#[derive(Debug, Drop)]
pub struct Pairs {
    /// Each index with its number.
    pairs: Vec<(u16, u32)>,
}

impl Model for Pairs {
    ghost use Rattle.std.specs.Prelude.{ℕ, List};

    ghost Value = { List (ℕ × ℕ) };

    ghost view = { λ p. p.pairs.items };
}

impl Pairs {
    ghost use Rattle.std.specs.Prelude.{◌≡◌, ◌↔◌, IsTrue, []};

    /// These pairs.
    pub fn new(pairs: Vec<(u16, u32)>) -> Self
        ensures { result ≡ pairs.items }
    {
        Pairs { pairs }
    }

    /// Whether there is none.
    pub fn is_empty(&self) -> bool
        ensures { IsTrue result ↔ (self.now ≡ []) }
    {
        self.pairs.is_empty()
    }
}
