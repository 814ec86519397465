//! A change of one row, and the verdicts on changes.
ghost use Rattle.std.specs.Prelude.{◌≡◌, All};
ghost use Rattle.std.specs.Option.{SomeIff};
ghost use Rattle.module_trait.specs.Edit.{IsEdit};

use prefix_width::Prefix;
use std::marker::Model;

/// The index of a prefix goes from `before` to `after`, which differ. `None` is no row at all.
#[derive(Clone, Copy, Debug, PartialEq, Eq)]
pub struct Edit<const W: u32> {
    prefix: Prefix<W>,
    before: Option<u16>,
    after: Option<u16>,
}

impl<const W: u32> Model for Edit<W> {
    ghost use Rattle.module_trait.specs.Edit.{IndexChange, IsEdit};

    ghost Value = { IndexChange };

    ghost view = { λ e. record { prefix = e.prefix; before = e.before; after = e.after } };

    ghost invariant = { λ e. IsEdit e.before e.after };

    ghost inverse = { λ c. record { prefix = c.prefix; before = c.before; after = c.after } };
}

impl<const W: u32> Edit<W> {
    /// The edit of a prefix. `None` where both sides are equal, or one is the index 0.
    pub fn new(prefix: Prefix<W>, before: Option<u16>, after: Option<u16>) -> Option<Edit<W>>
        ensures { SomeIff result (IsEdit before after) (record { prefix = prefix.entry; before = before; after = after }) }
    {
        if before == after || before == Some(0) || after == Some(0) {
            return None;
        }
        Some(Edit {
            prefix,
            before,
            after,
        })
    }

    /// The prefix.
    pub fn prefix(&self) -> Prefix<W>
        ensures { result ≡ self.now.prefix }
    {
        self.prefix
    }

    /// The index before the edit.
    pub fn before(&self) -> Option<u16>
        ensures { result ≡ self.now.before }
    {
        self.before
    }

    /// The index after the edit, and what every edit knows of its sides.
    pub fn after(&self) -> Option<u16>
        ensures value { result ≡ self.now.after }
        ensures edit { IsEdit self.now.before self.now.after }
    {
        self.after
    }
}

/// Looks at each edit once, to tell what every edit knows of its sides.
pub fn read_edits<const W: u32>(edits: &[Edit<W>])
    ensures { All (λ e. IsEdit e.before e.after) edits.now }
{
    for edit in edits {
        let _after = edit.after();
    }
}

/// What a module answers to a change.
#[derive(Clone, Copy, Debug, PartialEq, Eq)]
pub enum Verdict {
    /// The change is made.
    Done,
    /// The change is to come again, in a batch.
    Batch,
    /// The module is to be built anew.
    Rebuild,
}
