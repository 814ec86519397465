//! The bits of an address in words of their width.
ghost use Rattle.std.specs.Prelude.{◌≡◌, ◌==◌, ℕ, ◌/◌, ◌^◌, ◌<◌, ◌≤◌};

/// How a node keeps the number of an address.
pub(crate) trait Word: Copy + Drop {
    /// The number.
    ghost number: { Self → ℕ };

    /// How many bits a number may have.
    ghost width: { ℕ };

    /// Keeps a number.
    fn of(value: u128) -> Self
        requires { value < 2 ^ width }
        ensures { number result ≡ value };

    /// The number.
    fn get(&self) -> u128
        ensures { result ≡ number self.now };

    /// Whether another number differs in the last bits alone.
    fn agrees(&self, other: u128, bits: u32) -> bool
        requires within { bits ≤ width }
        requires fits { other < 2 ^ width }
        ensures { result ≡ (other / 2 ^ bits == number self.now / 2 ^ bits) };
}

impl Word for u32 {
    ghost number = { λ word. word };

    ghost width = { 32 };

    fn of(value: u128) -> u32 {
        value as u32
    }

    fn get(&self) -> u128 {
        u128::from(*self)
    }

    fn agrees(&self, other: u128, bits: u32) -> bool {
        (other as u64) >> bits == u64::from(*self) >> bits
    }
}

/// A number of 128 bits, which stands at each place where one of 64 bits may.
#[derive(Clone, Copy)]
pub(crate) struct Halves {
    high: u64,
    low: u64,
}

impl Word for Halves {
    ghost use Rattle.std.specs.Prelude.{◌+◌, ◌*◌, ◌^◌};

    ghost number = { λ word. word.high * 2 ^ 64 + word.low };

    ghost width = { 128 };

    fn of(value: u128) -> Halves {
        Halves {
            high: (value >> 64) as u64,
            low: (value % (1 << 64)) as u64,
        }
    }

    fn get(&self) -> u128 {
        (u128::from(self.high) << 64) + u128::from(self.low)
    }

    fn agrees(&self, other: u128, bits: u32) -> bool {
        shifted(other, bits) == shifted(self.get(), bits)
    }
}

/// A number without its last bits. They may be all 128, by which no shift goes.
fn shifted(value: u128, bits: u32) -> u128
    requires { bits ≤ 128 }
    ensures { result ≡ value / 2 ^ bits }
{
    if bits == 128 { 0 } else { value >> bits }
}
