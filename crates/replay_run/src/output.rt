//! The texts of the output, each appended to what was written before. Where memory is wanting, a
//! part of a text may be there.
ghost use Rattle.std.specs.Prelude.{◌≡◌, ◌++◌, ◌⊎◌, OnOk, decimal, codes, option_copied};
ghost use Rattle.addr_text.specs.Address.{IsFamilyWidth};
ghost use Rattle.replay_run.specs.Line.{numbered, reply_line, reply_text, refusal_text, get_text, link_text, nexthop_text, target_text, family_name, module_name, packets_text, version_text, fib_text};

use crate::OutOfMemory;
use addr_text::write_addr;
use itoa::Buffer;
use prefix_width::{Addr, Kind, Nexthop, NhKind};
use rib_store::{Refusal, Reply};
use std::alloc::Global;

/// Appends the line of a reply to the line of this number, if the reply has one.
pub fn write_reply(line: u32, reply: Reply, out: &mut Vec<u8>) -> Result<(), OutOfMemory>
    ensures { OnOk result (out.new.items ≡ out.old.items ++ reply_line line reply) }
{
    match reply {
        Reply::Nothing => Ok(()),
        reply => push_numbered(line, reply, out),
    }
}

fn push_numbered(line: u32, reply: Reply, out: &mut Vec<u8>) -> Result<(), OutOfMemory>
    ensures { OnOk result (out.new.items ≡ out.old.items ++ numbered line (reply_text reply)) }
{
    push_number(u64::from(line), out)?;
    out.extend_from_slice(b" ")?;
    push_reply(reply, out)?;
    out.extend_from_slice(b"\n")
}

fn push_reply(reply: Reply, out: &mut Vec<u8>) -> Result<(), OutOfMemory>
    ensures { OnOk result (out.new.items ≡ out.old.items ++ reply_text reply) }
{
    match reply {
        Reply::Added => out.extend_from_slice(b"added"),
        Reply::Joined => out.extend_from_slice(b"joined"),
        Reply::Changed => out.extend_from_slice(b"changed"),
        Reply::Deleted => out.extend_from_slice(b"deleted"),
        Reply::Flushed(routes) => {
            out.extend_from_slice(b"flushed ")?;
            push_number(u64::from(routes), out)
        }
        Reply::Nothing => Ok(()),
        Reply::Refused(refusal) => {
            out.extend_from_slice(b"refused ")?;
            out.extend_from_slice(refusal_text(refusal).as_bytes())
        }
    }
}

fn refusal_text(refusal: Refusal) -> &'static str
    ensures { result.now ≡ refusal_text refusal }
{
    match refusal {
        Refusal::Exists => "exists",
        Refusal::NotFound => "not found",
        Refusal::PathsFull => "paths full",
        Refusal::TableFull => "table full",
        Refusal::TargetsFull => "targets full",
    }
}

/// Appends the line of a get on the line of this number: its address, the version that it was
/// answered at, and the nexthop, `None` where no route matched. `W` is 32 or 128.
pub fn write_get<const W: u32>(
    alloc: Global,
    line: u32,
    addr: &Addr<W>,
    version: u64,
    nexthop: Option<&Nexthop<W>>,
    out: &mut Vec<u8>,
) -> Result<(), OutOfMemory>
    requires { IsFamilyWidth W }
    ensures { OnOk result (out.new.items ≡ out.old.items ++ numbered line (get_text W addr.now version (option_copied nexthop.entry))) }
{
    push_number(u64::from(line), out)?;
    out.extend_from_slice(b" ")?;
    push_get(alloc, addr, version, nexthop, out)?;
    out.extend_from_slice(b"\n")
}

fn push_get<const W: u32>(
    alloc: Global,
    addr: &Addr<W>,
    version: u64,
    nexthop: Option<&Nexthop<W>>,
    out: &mut Vec<u8>,
) -> Result<(), OutOfMemory>
    requires { IsFamilyWidth W }
    ensures { OnOk result (out.new.items ≡ out.old.items ++ get_text W addr.now version (option_copied nexthop.entry)) }
{
    write_addr(alloc, addr, out)?;
    out.extend_from_slice(b" version ")?;
    push_number(version, out)?;
    out.extend_from_slice(b" ")?;
    push_target(alloc, nexthop, out)
}

fn push_target<const W: u32>(
    alloc: Global,
    nexthop: Option<&Nexthop<W>>,
    out: &mut Vec<u8>,
) -> Result<(), OutOfMemory>
    requires { IsFamilyWidth W }
    ensures { OnOk result (out.new.items ≡ out.old.items ++ target_text W (option_copied nexthop.entry)) }
{
    match nexthop {
        Some(nexthop) => push_nexthop(alloc, nexthop, out),
        None => out.extend_from_slice(b"none"),
    }
}

fn push_nexthop<const W: u32>(
    alloc: Global,
    nexthop: &Nexthop<W>,
    out: &mut Vec<u8>,
) -> Result<(), OutOfMemory>
    requires { IsFamilyWidth W }
    ensures { OnOk result (out.new.items ≡ out.old.items ++ nexthop_text W nexthop.now) }
{
    match nexthop.kind() {
        NhKind::Via => {
            out.extend_from_slice(b"via ")?;
            write_addr(alloc, &nexthop.gateway(), out)?;
            push_link(nexthop, out)
        }
        NhKind::Direct => {
            out.extend_from_slice(b"direct")?;
            push_link(nexthop, out)
        }
        NhKind::Blackhole => out.extend_from_slice(b"blackhole"),
        NhKind::Reject => out.extend_from_slice(b"reject"),
    }
}

fn push_link<const W: u32>(nexthop: &Nexthop<W>, out: &mut Vec<u8>) -> Result<(), OutOfMemory>
    ensures { OnOk result (out.new.items ≡ out.old.items ++ link_text nexthop.now) }
{
    out.extend_from_slice(b" if ")?;
    push_number(u64::from(nexthop.iface()), out)?;
    out.extend_from_slice(b" mtu ")?;
    push_number(u64::from(nexthop.mtu()), out)
}

/// Appends the line of a nexthop's packets. `W` is 32 or 128.
pub fn write_packets<const W: u32>(
    alloc: Global,
    count: u64,
    nexthop: &Nexthop<W>,
    out: &mut Vec<u8>,
) -> Result<(), OutOfMemory>
    requires { IsFamilyWidth W }
    ensures { OnOk result (out.new.items ≡ out.old.items ++ packets_text W (nexthop.now, count)) }
{
    out.extend_from_slice(b"packets ")?;
    push_family::<W>(out)?;
    out.extend_from_slice(b" ")?;
    push_number(count, out)?;
    out.extend_from_slice(b" ")?;
    push_nexthop(alloc, nexthop, out)?;
    out.extend_from_slice(b"\n")
}

/// Appends the line of a family's last version. `W` is 32 or 128.
pub fn write_fib<const W: u32>(
    version: u64,
    routes: u32,
    kind: Kind,
    out: &mut Vec<u8>,
) -> Result<(), OutOfMemory>
    requires { IsFamilyWidth W }
    ensures { OnOk result (out.new.items ≡ out.old.items ++ fib_text W version routes kind) }
{
    out.extend_from_slice(b"fib ")?;
    push_family::<W>(out)?;
    push_version(version, routes, kind, out)?;
    out.extend_from_slice(b"\n")
}

fn push_version(version: u64, routes: u32, kind: Kind, out: &mut Vec<u8>) -> Result<(), OutOfMemory>
    ensures { OnOk result (out.new.items ≡ out.old.items ++ version_text version routes kind) }
{
    out.extend_from_slice(b" version ")?;
    push_number(version, out)?;
    out.extend_from_slice(b" routes ")?;
    push_number(u64::from(routes), out)?;
    out.extend_from_slice(b" algo ")?;
    out.extend_from_slice(module_name(kind).as_bytes())
}

fn module_name(kind: Kind) -> &'static str
    ensures { result.now ≡ module_name kind }
{
    match kind {
        Kind::Scan => "scan",
        Kind::Range => "range",
        Kind::Radix => "radix",
        Kind::Dxr => "dxr",
    }
}

fn push_family<const W: u32>(out: &mut Vec<u8>) -> Result<(), OutOfMemory>
    ensures { OnOk result (out.new.items ≡ out.old.items ++ family_name W) }
{
    if W == 32 {
        out.extend_from_slice(b"inet")
    } else {
        out.extend_from_slice(b"inet6")
    }
}

pub(crate) fn push_number(n: u64, out: &mut Vec<u8>) -> Result<(), OutOfMemory>
    ensures { OnOk result (out.new.items ≡ out.old.items ++ decimal n) }
{
    let mut buffer = Buffer::new();
    out.extend_from_slice(buffer.format(n).as_bytes())
}
