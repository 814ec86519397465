//! Prefixes.
ghost use Rattle.std.specs.Prelude.{◌≡◌, ℕ, ◌+◌, ◌-◌, ◌*◌, ◌^◌, ◌<◌, ◌≤◌, ◌↔◌};
ghost use Rattle.std.specs.Option.{SomeIff};
ghost use Rattle.prefix_width.specs.Prefix.{Block, IsBlock, IsCommonLen, head_of, masked_block, contains, covers, last_of};

use crate::addr::Addr;
use std::marker::Model;

/// An address and a length of at most `W`, with the host bits zero, ordered by address, then length.
#[derive(Clone, Copy, Debug, PartialEq, Eq, PartialOrd, Ord)]
pub struct Prefix<const W: u32> {
    addr: Addr<W>,
    len: u8,
}

impl<const W: u32> Model for Prefix<W> {
    ghost Value = { Block };

    ghost view = { λ p. record { base = p.addr; len = p.len } };

    ghost invariant = { λ p. IsBlock W (record { base = p.addr; len = p.len }) };

    ghost inverse = { λ b. record { addr = b.base; len = b.len } };
}

impl<const W: u32> Prefix<W> {
    /// The prefix of this length that contains the address: its host bits are cleared. `None`
    /// where the length is greater than `W`.
    pub fn masked(addr: Addr<W>, len: u8) -> Option<Prefix<W>>
        ensures { SomeIff result (len ≤ W) (masked_block W addr.entry len) }
    {
        let value = addr.value();
        if u32::from(len) > W {
            return None;
        }
        let value = cleared::<W>(value, len);
        Some(Prefix {
            addr: Addr { value },
            len,
        })
    }

    /// The least address that it contains.
    pub fn addr(&self) -> Addr<W>
        ensures { result ≡ self.now.base }
    {
        self.addr
    }

    /// How many leading bits it fixes, and what every prefix knows of its fields.
    pub fn len(&self) -> u8
        ensures value { result ≡ self.now.len }
        ensures block { IsBlock W self.now }
    {
        self.len
    }

    /// Whether the address has the prefix's leading bits.
    pub fn contains(&self, addr: &Addr<W>) -> bool
        ensures { result ≡ contains W self.now addr.now }
    {
        head::<W>(addr.value(), self.len) == head::<W>(self.addr.value(), self.len)
    }

    /// Whether every address of the other prefix is one of this: it is no longer, and contains the
    /// other's address.
    pub fn covers(&self, other: &Prefix<W>) -> bool
        ensures { result ≡ covers W self.now other.now }
    {
        self.len <= other.len && self.contains(&other.addr)
    }

    /// The least address that it contains.
    pub fn first(&self) -> Addr<W>
        ensures { result ≡ self.now.base }
    {
        self.addr
    }

    /// The greatest address that it contains.
    pub fn last(&self) -> Addr<W>
        ensures { result ≡ last_of W self.now }
    {
        let value = self.addr.value() + host_mask::<W>(self.len);
        Addr { value }
    }

    /// The greatest length, at most both, at which the two agree.
    pub fn common_len(&self, other: &Prefix<W>) -> u8
        ensures { IsCommonLen W self.now other.now result }
    {
        let shared = shared_bits::<W>(self.addr.value(), other.addr.value());
        self.len.min(other.len).min(shared)
    }
}

/// The first `len` bits of an address. `W - len` may be 128, by which no shift goes.
fn head<const W: u32>(value: u128, len: u8) -> u128
    requires most { W ≤ 128 }
    requires within { len ≤ W }
    requires small { value < 2 ^ W }
    ensures { result ≡ head_of W len value }
{
    let bits = W - u32::from(len);
    if bits == 128 { 0 } else { value >> bits }
}

/// How many leading bits two addresses share.
fn shared_bits<const W: u32>(here: u128, there: u128) -> u8
    requires most { W ≤ 128 }
    requires here { here < 2 ^ W }
    requires there { there < 2 ^ W }
    ensures { (n : ℕ) → n ≤ W → (n ≤ result) ↔ (head_of W n here ≡ head_of W n there) }
{
    let zeros = (here ^ there).leading_zeros();
    (zeros - (128 - W)) as u8
}

/// The address with the bits behind the first `len` cleared.
fn cleared<const W: u32>(value: u128, len: u8) -> u128
    requires most { W ≤ 128 }
    requires within { len ≤ W }
    requires small { value < 2 ^ W }
    ensures { result ≡ head_of W len value * 2 ^ (W - len) }
{
    let bits = W - u32::from(len);
    if bits == 128 {
        0
    } else {
        (value >> bits) << bits
    }
}

/// How far the last address of a prefix lies past its first.
fn host_mask<const W: u32>(len: u8) -> u128
    requires most { W ≤ 128 }
    requires within { len ≤ W }
    ensures { result ≡ 2 ^ (W - len) - 1 }
{
    let bits = W - u32::from(len);
    if bits == 128 {
        u128::MAX
    } else {
        (1u128 << bits) - 1
    }
}
