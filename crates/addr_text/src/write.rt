//! The texts of addresses and prefixes.
ghost use Rattle.std.specs.Prelude.{◌≡◌, ◌≤◌, ◌<◌, ◌++◌, OnOk, OnErr, IfOk, drop, codes, decimal, string_bytes};
ghost use Rattle.std.specs.Net.Addr.{ipv4_octets, ipv6_segments};
ghost use Rattle.std.specs.Net.Text.{ipv4_text, hex_groups_text};
ghost use Rattle.addr_text.specs.Address.{IsFamilyWidth, dotted_of, colon_hex_of, address_text};
ghost use Rattle.addr_text.specs.PrefixText.{prefix_text};

use crate::OutOfMemory;
use crate::digits::{put_byte, put_dotted, put_number};
use prefix_width::{Addr, Prefix};
use std::alloc::Global;
use std::net::{Ipv4Addr, Ipv6Addr};

/// Appends the text of an address: dotted at 32 bits, and at 128 hex groups in their shortest form
/// (RFC 5952 section 4), never with a dotted tail. Where memory is wanting, `out` is as before. `W`
/// is 32 or 128.
pub fn write_addr<const W: u32>(
    alloc: Global,
    addr: &Addr<W>,
    out: &mut Vec<u8>,
) -> Result<(), OutOfMemory>
    requires { IsFamilyWidth W }
    ensures ok { OnOk result (out.new.items ≡ out.old.items ++ address_text W addr.now) }
    ensures err { OnErr result (out.new.items ≡ out.old.items) }
{
    if W == 32 {
        let mut text = [0; 64];
        let start = put_v4(addr, 64, &mut text);
        out.extend_from_slice(&text[start..])
    } else {
        let text = groups_string(alloc, addr)?;
        out.extend_from_slice(text.as_bytes())
    }
}

/// Appends the text of a prefix, its address and its length with `/` between them. Where memory is
/// wanting, `out` is as before. `W` is 32 or 128.
pub fn write_prefix<const W: u32>(
    alloc: Global,
    prefix: &Prefix<W>,
    out: &mut Vec<u8>,
) -> Result<(), OutOfMemory>
    requires { IsFamilyWidth W }
    ensures ok { OnOk result (out.new.items ≡ out.old.items ++ prefix_text W prefix.now) }
    ensures err { OnErr result (out.new.items ≡ out.old.items) }
{
    let len = prefix.len();
    if W == 32 {
        let mut text = [0; 64];
        let start = put_number(u32::from(len), 64, &mut text);
        let start = put_byte(b'/', start, &mut text);
        let start = put_v4(&prefix.addr(), start, &mut text);
        out.extend_from_slice(&text[start..])
    } else {
        let text = slashed_groups_string(alloc, &prefix.addr(), len)?;
        out.extend_from_slice(text.as_bytes())
    }
}

/// Appends the decimal digits of a number. Where memory is wanting, `out` is as before.
pub fn write_number(number: u32, out: &mut Vec<u8>) -> Result<(), OutOfMemory>
    ensures ok { OnOk result (out.new.items ≡ out.old.items ++ decimal number) }
    ensures err { OnErr result (out.new.items ≡ out.old.items) }
{
    let mut text = [0; 64];
    let start = put_number(number, 64, &mut text);
    out.extend_from_slice(&text[start..])
}

/// Puts the dotted text of an address before the place `end`, and says where it begins.
fn put_v4<const W: u32>(addr: &Addr<W>, end: usize, text: &mut [u8; 64]) -> usize
    requires width { W ≡ 32 }
    requires most { 43 ≤ end }
    requires within { end ≤ 64 }
    ensures before { result < end }
    ensures text { drop result text.new ≡ dotted_of addr.now ++ drop end text.old }
{
    let [a, b, c, d] = v4_addr(addr).octets();
    put_dotted(a, b, c, d, end, text)
}

// The display of an IPv6 address may end in a dotted tail; that of its groups never does.
fn groups_string<const W: u32>(alloc: Global, addr: &Addr<W>) -> Result<String, OutOfMemory>
    requires { W ≡ 128 }
    ensures { IfOk result (λ text. string_bytes text ≡ colon_hex_of addr.now) }
{
    let addr = v6_addr(addr);
    let groups = addr.hex_groups();
    format!(in alloc; "{groups}")
}

fn slashed_groups_string<const W: u32>(
    alloc: Global,
    addr: &Addr<W>,
    len: u8,
) -> Result<String, OutOfMemory>
    requires { W ≡ 128 }
    ensures { IfOk result (λ text. string_bytes text ≡ colon_hex_of addr.now ++ (codes "/" ++ decimal len)) }
{
    let addr = v6_addr(addr);
    let groups = addr.hex_groups();
    format!(in alloc; "{groups}/{len}")
}

fn v4_addr<const W: u32>(addr: &Addr<W>) -> Ipv4Addr
    requires { W ≡ 32 }
    ensures { ipv4_text (ipv4_octets result) ≡ dotted_of addr.now }
{
    // a number below 2^32, so nothing is lost
    Ipv4Addr::from_bits(addr.value() as u32)
}

fn v6_addr<const W: u32>(addr: &Addr<W>) -> Ipv6Addr
    requires { W ≡ 128 }
    ensures { hex_groups_text (ipv6_segments result) ≡ colon_hex_of addr.now }
{
    Ipv6Addr::from_bits(addr.value())
}
