//! Addresses.
ghost use Rattle.std.specs.Prelude.{◌≡◌, ◌==◌, ℕ, ◌-◌, ◌/◌, ◌%◌, ◌^◌, ◌<◌, ◌≤◌};
ghost use Rattle.prefix_width.specs.Prefix.{bit_of};
ghost use Rattle.std.specs.Option.{SomeIff};

use std::marker::Model;

/// An address: a number below `2^W`, ordered as a number.
#[derive(Clone, Copy, Debug, PartialEq, Eq, PartialOrd, Ord)]
pub struct Addr<const W: u32> {
    pub(crate) value: u128,
}

impl<const W: u32> Model for Addr<W> {
    ghost Value = { ℕ };

    ghost view = { λ a. a.value };

    ghost invariant = { λ a. (1 ≤ W) × (W ≤ 128) × (a.value < 2 ^ W) };

    ghost inverse = { λ n. record { value = n } };
}

impl<const W: u32> Addr<W> {
    /// The address of a number. `None` where the number needs more than `W` bits. `W` is from 1 to
    /// 128.
    pub fn new(value: u128) -> Option<Addr<W>>
        requires { (1 ≤ W) × (W ≤ 128) }
        ensures { SomeIff result (value < 2 ^ W) value }
    {
        if W == 128 || value < 1u128 << W {
            Some(Addr { value })
        } else {
            None
        }
    }

    /// The greatest address, all of whose bits are set. `W` is from 1 to 128.
    pub fn greatest() -> Addr<W>
        requires { (1 ≤ W) × (W ≤ 128) }
        ensures { result ≡ 2 ^ W - 1 }
    {
        let value = if W == 128 {
            u128::MAX
        } else {
            (1u128 << W) - 1
        };
        Addr { value }
    }

    /// The number, and what every address knows of its width.
    pub fn value(&self) -> u128
        ensures value { result ≡ self.now }
        ensures bound { result < 2 ^ W }
        ensures least { 1 ≤ W }
        ensures most { W ≤ 128 }
    {
        self.value
    }

    /// The bit at a place, counted from the leading one, which is at 0. The place is below `W`.
    pub fn bit(&self, i: u8) -> bool
        requires { i < W }
        ensures { result ≡ bit_of W i self.now }
    {
        (self.value >> (W - 1 - u32::from(i))) & 1 == 1
    }
}
