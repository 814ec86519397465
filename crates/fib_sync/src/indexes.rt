ghost use Rattle.std.specs.Prelude.{◌≡◌, ℕ, ◌<◌, List, Option, Some, None, true, length, slice_get};
ghost use Rattle.std.specs.List.Sorted.{IsStrictlySortedBy};
ghost use Rattle.std.specs.Map.{keys_of};
ghost use Rattle.std.specs.Ordering.{nat_cmp};
ghost use Rattle.nhgrp_slots.specs.declared.target.Target.{Target as TargetOf};
ghost use Rattle.fib_sync.specs.Entries.{names_in};

use nhgrp_slots::Target;

/// The indexes of a version, beside those of the version before it.
pub trait VersionIndexes<const W: u32> {
    /// Each index with its target.
    ghost indexes: { Self → List (ℕ × TargetOf W) };

    /// The target of each index of the version before.
    ghost before: { Self → ℕ → Option (TargetOf W) };

    /// How many indexes there are. They ascend.
    fn len(&self) -> u16
        ensures count { result ≡ length (indexes self.now) }
        ensures ascending { IsStrictlySortedBy nat_cmp (keys_of (indexes self.now)) };

    /// The index that `i` others are below, with its target.
    fn entry(&self, i: u16) -> (u16, &Target<W>)
        requires { i < length (indexes self.now) }
        ensures { slice_get (indexes self.now) i ≡ Some (result.0, result.1.now) };

    /// An index of the target, `None` where it has none.
    fn index_of(&self, target: &Target<W>) -> Option<u16>
        ensures found { (i : ℕ) → result ≡ Some i → names_in (indexes self.now) i ≡ Some target.now }
        ensures none { result ≡ None → (i : ℕ) → names_in (indexes self.now) i ≡ Some target.now → ⊥ };

    /// Whether the version before has the same target at the index. It may say no where it has.
    fn is_kept(&self, index: u16) -> bool
        ensures { result ≡ true → before self.now index ≡ names_in (indexes self.now) index };
}
