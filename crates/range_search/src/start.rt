//! The start of a range, in the width of its family.
ghost use Rattle.std.specs.Prelude.{◌≡◌, ℕ, ◌+◌, ◌^◌, ◌<◌, ◌↔◌, IsTrue, IfSome, IfNone};

/// The address at which a cell begins, as wide as the cells have it.
pub(crate) trait Start: Copy {
    ghost number: { Self → ℕ };

    /// How many there are.
    ghost count: { ℕ };

    /// The one behind it, `None` where it is the last.
    fn next(self) -> Option<Self>
        ensures some { IfSome result (λ next. number next ≡ number self + 1) }
        ensures none { IfNone result (number self + 1 ≡ count) };

    /// Whether it is before another.
    fn is_before(self, other: Self) -> bool
        ensures before { IsTrue result ↔ (number self < number other) }
        ensures within { number self < count };
}

impl Start for u32 {
    ghost number = { λ n. n };

    ghost count = { 2 ^ 32 };

    // Counted as a wider number, so that the compiler keeps the comparison with the next one: that
    // with the number itself is slower, since it asks for two flags.
    fn next(self) -> Option<u32> {
        u32::try_from(u64::from(self) + 1).ok()
    }

    fn is_before(self, other: u32) -> bool {
        self < other
    }
}

impl Start for u128 {
    ghost number = { λ n. n };

    ghost count = { 2 ^ 128 };

    fn next(self) -> Option<u128> {
        self.checked_add(1)
    }

    fn is_before(self, other: u128) -> bool {
        self < other
    }
}
