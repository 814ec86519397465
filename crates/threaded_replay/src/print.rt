//! The output of a replay whose gets were answered.
ghost use Rattle.std.specs.Prelude.{◌≡◌, ◌++◌, ◌+◌, ◌<◌, IfSome, OnOk, Some, length};
ghost use Rattle.std.specs.List.{flat_map};
ghost use Rattle.addr_text.specs.Address.{IsFamilyWidth};
ghost use Rattle.engine_set.specs.Engine.{kind_of};
ghost use Rattle.rib_store.specs.Limits.{routes_max};
ghost use Rattle.replay_run.specs.Family.{FlushesAtMost};
ghost use Rattle.replay_run.specs.Line.{fib_text, get_text, numbered, packets_text};
ghost use Rattle.replay_run.specs.Output.{line_text, one_reply, paired, replied, reply_of};
ghost use Rattle.fib_sync.specs.Replies.{reply_at};
ghost use Rattle.replay_run.specs.Limits.{targets_max};
ghost use Rattle.threaded_replay.specs.Merging.{version_in};
ghost use Rattle.threaded_replay.specs.Printing.{HasAllReplies, IsAtGet, IsPrintable, text_behind};

use crate::{Got, OutOfMemory, Ran};
use fib_pass::Totals;
use fib_sync::Control;
use prefix_width::Addr;
use replay_run::{
    BANKS, TARGETS_MAX, one_reply, write_fib, write_get, write_one_reply, write_packets,
};
use rib_store::Reply;
use route_lang::{Line, Script};
use std::alloc::Global;

/// The reply to the command of a line, if the line has one in this plan.
fn reply_of<const W: u32>(
    control: &Control<W, BANKS, TARGETS_MAX>,
    position: Option<u32>,
) -> Option<Reply>
    requires all { HasAllReplies control.now }
    requires within { IfSome position (λ pos. pos < length control.now.plan.commands) }
    ensures value { result ≡ reply_of targets_max control.now.plan position }
    ensures flushes { IfSome result (FlushesAtMost routes_max) }
{
    match position {
        Some(pos) => Some(reply_at(control, pos)),
        None => None,
    }
}

/// The reply to the command of a position.
fn reply_at<const W: u32>(control: &Control<W, BANKS, TARGETS_MAX>, pos: u32) -> Reply
    requires all { HasAllReplies control.now }
    requires within { pos < length control.now.plan.commands }
    ensures value { Some result ≡ reply_at targets_max control.now.plan pos }
    ensures flushes { FlushesAtMost routes_max result }
{
    control.replies()[pos as usize]
}

/// Appends the reply to a line that asks for a change, with these positions in the plans.
fn write_change(
    line: u32,
    inet: Option<u32>,
    inet6: Option<u32>,
    ran: &Ran,
    out: &mut Vec<u8>,
) -> Result<(), OutOfMemory>
    requires all { HasAllReplies ran.now.fibs.inet.control × HasAllReplies ran.now.fibs.inet6.control }
    requires inet { IfSome inet (λ pos. pos < length ran.now.fibs.inet.control.plan.commands) }
    requires inet6 { IfSome inet6 (λ pos. pos < length ran.now.fibs.inet6.control.plan.commands) }
    ensures { OnOk result (out.new.items ≡ out.old.items ++ replied line (one_reply (reply_of targets_max ran.now.fibs.inet.control.plan inet) (reply_of targets_max ran.now.fibs.inet6.control.plan inet6))) }
{
    let reply = reply_of(&ran.fibs.inet.control, inet);
    let reply6 = reply_of(&ran.fibs.inet6.control, inet6);
    write_one_reply(line, one_reply(reply, reply6), out)
}

/// Appends the answer of a get of IPv4.
fn write_got(
    alloc: Global,
    line: u32,
    addr: &Addr<32>,
    got: &Got,
    out: &mut Vec<u8>,
) -> Result<(), OutOfMemory>
    ensures { OnOk result (out.new.items ≡ out.old.items ++ numbered line (get_text 32 addr.now got.now.version got.now.inet)) }
{
    write_get(alloc, line, addr, got.version, got.inet.as_ref(), out)
}

/// Appends the answer of a get of IPv6.
fn write_got6(
    alloc: Global,
    line: u32,
    addr: &Addr<128>,
    got: &Got,
    out: &mut Vec<u8>,
) -> Result<(), OutOfMemory>
    ensures { OnOk result (out.new.items ≡ out.old.items ++ numbered line (get_text 128 addr.now got.now.version got.now.inet6)) }
{
    write_get(alloc, line, addr, got.version, got.inet6.as_ref(), out)
}

/// Appends the line of each nexthop's packets.
pub(crate) fn write_all_packets<const W: u32>(
    alloc: Global,
    totals: &Totals<W>,
    out: &mut Vec<u8>,
) -> Result<(), OutOfMemory>
    requires { IsFamilyWidth W }
    ensures { OnOk result (out.new.items ≡ out.old.items ++ flat_map (λ p. packets_text W (p.nexthop, p.count)) totals.now.packets) }
{
    for packets in totals.packets() {
        write_packets(alloc, packets.count, &packets.nexthop, out)?;
    }
    Ok(())
}

/// Appends the line of the version that a control gave last.
pub(crate) fn write_last<const W: u32>(
    control: &Control<W, BANKS, TARGETS_MAX>,
    out: &mut Vec<u8>,
) -> Result<(), OutOfMemory>
    requires { IsFamilyWidth W }
    ensures { OnOk result (out.new.items ≡ out.old.items ++ fib_text W control.now.image.version control.now.image.routes (kind_of control.now.image.engine)) }
{
    let image = control.image();
    write_fib::<W>(image.version(), image.routes(), image.kind(), out)
}

/// Appends what is written for the line of a number, counted from 0, before which so many gets
/// stand.
fn write_line(
    alloc: Global,
    script: &Script,
    i: usize,
    ran: &Ran,
    gets: &mut usize,
    out: &mut Vec<u8>,
) -> Result<(), OutOfMemory>
    requires line { i < length script.now.lines }
    requires ran { IsPrintable script.now ran.now }
    requires at { IsAtGet script.now i gets.old }
    ensures at { OnOk result (IsAtGet script.now (i + 1) gets.new) }
    ensures text { OnOk result (out.new.items ++ text_behind targets_max script.now (i + 1) (version_in ran.now.gots.items) gets.new ≡ out.old.items ++ text_behind targets_max script.now i (version_in ran.now.gots.items) gets.old) }
{
    match *script.lines().get(i) {
        Line::Change { line, inet, inet6 } => write_change(line, inet, inet6, ran, out),
        Line::Quiet { .. } => Ok(()),
        Line::Get4 {
            line,
            addr,
            flow: _,
            at: _,
        } => {
            let got = &ran.gots[*gets];
            *gets += 1;
            write_got(alloc, line, &addr, got, out)
        }
        Line::Get6 {
            line,
            addr,
            flow: _,
            at: _,
        } => {
            let got = &ran.gots[*gets];
            *gets += 1;
            write_got6(alloc, line, &addr, got, out)
        }
    }
}

/// Appends what is written for the lines of a script.
pub(crate) fn write_lines(
    alloc: Global,
    script: &Script,
    ran: &Ran,
    out: &mut Vec<u8>,
) -> Result<(), OutOfMemory>
    requires { IsPrintable script.now ran.now }
    ensures { OnOk result (out.new.items ≡ out.old.items ++ flat_map (line_text targets_max script.now) (paired script.now.lines (version_in ran.now.gots.items))) }
{
    let mut gets = 0;
    for i in 0..script.lines().len() {
        write_line(alloc, script, i, ran, &mut gets, out)?;
    }
    Ok(())
}
