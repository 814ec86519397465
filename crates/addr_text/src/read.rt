//! Addresses and prefixes from their texts.
ghost use Rattle.std.specs.Prelude.{◌≡◌, ◌↔◌, ◌<◌, ◌≤◌, ℕ, List, length, position, is_some, MatchOption, IfSome, Some};
ghost use Rattle.std.specs.List.{list_any, before_first, after_first};
ghost use Rattle.std.specs.Net.Grammar.{IsDotted, IsColonHex};
ghost use Rattle.prefix_width.specs.Prefix.{Block};
ghost use Rattle.addr_text.specs.Address.{IsFamilyWidth, WritesIpv4, WritesIpv6, ipv4_of, ipv6_of, address_of};
ghost use Rattle.addr_text.specs.PrefixText.{WritesPrefix, is_slash, length_of, masked_by, default_block, block_of};

use crate::number::read_number;
use prefix_width::{Addr, Prefix};
use std::net::{Ipv4Addr, Ipv6Addr};

/// The IPv4 address that a text writes: four decimal numbers below 256 with no leading zeros, and
/// dots between them. `None` for any other text.
pub fn read_v4(text: &[u8]) -> Option<Addr<32>>
    ensures exact { result ≡ ipv4_of text.now }
    ensures grammar { MatchOption result ((octets : List ℕ) → ¬ (IsDotted text.now octets)) (WritesIpv4 text.now) }
{
    read_addr::<32>(text)
}

/// The IPv6 address that a text writes (RFC 4291 section 2.2). `None` for any other text.
pub fn read_v6(text: &[u8]) -> Option<Addr<128>>
    ensures exact { result ≡ ipv6_of text.now }
    ensures grammar { MatchOption result ((groups : List ℕ) → ¬ (IsColonHex text.now groups)) (WritesIpv6 text.now) }
{
    read_addr::<128>(text)
}

/// The address that a text writes, of IPv4 at 32 bits and of IPv6 at 128. `None` for any other
/// text. `W` is 32 or 128.
pub fn read_addr<const W: u32>(text: &[u8]) -> Option<Addr<W>>
    requires { IsFamilyWidth W }
    ensures { result ≡ address_of W text.now }
{
    if W == 32 {
        Addr::new(u128::from(v4_bits(text)?))
    } else {
        Addr::new(v6_bits(text)?)
    }
}

fn v4_bits(text: &[u8]) -> Option<u32>
    ensures { result ≡ ipv4_of text.now }
{
    match Ipv4Addr::parse_ascii(text) {
        Ok(addr) => Some(addr.to_bits()),
        Err(_) => None,
    }
}

fn v6_bits(text: &[u8]) -> Option<u128>
    ensures { result ≡ ipv6_of text.now }
{
    match Ipv6Addr::parse_ascii(text) {
        Ok(addr) => Some(addr.to_bits()),
        Err(_) => None,
    }
}

/// The prefix that a text writes: `ADDR/LEN`, whose host bits are cleared; an address alone, which
/// is a prefix of full length; or `default`, the prefix of length 0. `None` for any other text. `W`
/// is 32 or 128.
pub fn read_prefix<const W: u32>(text: &[u8]) -> Option<Prefix<W>>
    requires { IsFamilyWidth W }
    ensures exact { result ≡ block_of W text.now }
    ensures grammar { (b : Block) → (result ≡ Some b) ↔ WritesPrefix W text.now b }
{
    prefix_of(text)
}

fn prefix_of<const W: u32>(text: &[u8]) -> Option<Prefix<W>>
    requires { IsFamilyWidth W }
    ensures { result ≡ block_of W text.now }
{
    if text == b"default".as_slice() {
        return whole_family();
    }
    match split_at_slash(text) {
        Some((addr, len)) => Prefix::masked(read_addr(addr)?, read_len::<W>(len)?),
        // 32 or 128, so nothing is lost
        None => Prefix::masked(read_addr(text)?, W as u8),
    }
}

/// The prefix of length 0.
fn whole_family<const W: u32>() -> Option<Prefix<W>>
    requires { IsFamilyWidth W }
    ensures { result ≡ Some default_block }
{
    Prefix::masked(Addr::new(0)?, 0)
}

/// What stands before and after the first `/`, if there is one.
fn split_at_slash(text: &[u8]) -> Option<(&[u8], &[u8])>
    ensures found { is_some result ≡ list_any is_slash text.now }
    ensures before { IfSome result (λ parts. parts.0.now ≡ before_first is_slash text.now) }
    ensures after { IfSome result (λ parts. parts.1.now ≡ after_first is_slash text.now) }
{
    let place = slash_place(text)?;
    Some((&text[..place], &text[place + 1..]))
}

/// The place of the first `/`.
fn slash_place(text: &[u8]) -> Option<usize>
    ensures place { result ≡ position is_slash text.now }
    ensures inside { IfSome result (λ place. place < length text.now) }
{
    text.iter().position(|byte| *byte == b'/')
}

/// The length that a text writes, from 0 to `W`.
fn read_len<const W: u32>(text: &[u8]) -> Option<u8>
    requires { IsFamilyWidth W }
    ensures value { result ≡ length_of W text.now }
    ensures within { IfSome result (λ len. len ≤ W) }
{
    let len = read_number(text)?;
    // at most 128, so nothing is lost
    if len <= W { Some(len as u8) } else { None }
}
