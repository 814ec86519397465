//! A line as the program writes it.
ghost use Rattle.std.specs.Prelude.{◌≡◌, ◌∷◌, ◌++◌, [], ◌<◌, OnOk, OnErr, IfOk, IfSome, length, slice_get, codes, decimal};
ghost use Rattle.std.specs.Arc.{arc_value};
ghost use Rattle.addr_text.specs.Address.{IsFamilyWidth, address_text};
ghost use Rattle.addr_text.specs.PrefixText.{prefix_text};
ghost use Rattle.route_lang.specs.Spelling.{family_word, option_words, setting_words, target_words, route_words, gateway_words, module_word, command_words, shared_words, get_words, words_at, line_words, profile_text, spaced, joined, spelled_line, spelled_at, ShownTextReadsBack};
ghost use Rattle.route_lang.specs.Fits.{HasCommands};

use crate::line::Line;
use crate::script::Script;
use addr_text::{OutOfMemory, write_addr, write_number, write_prefix};
use prefix_width::{Addr, Kind, NhKind, Path, Prefix, Setting};
use rib_store::Command;
use std::alloc::Global;

/// Appends the line that sets a profile, and a line feed; nothing for profile 1, which holds where
/// no line sets one. Where memory is wanting, `out` is as before.
pub fn write_profile(profile: u8, out: &mut Vec<u8>) -> Result<(), OutOfMemory>
    ensures ok { OnOk result (out.new.items ≡ out.old.items ++ profile_text profile) }
    ensures err { OnErr result (out.new.items ≡ out.old.items) }
{
    if profile == 2 {
        out.extend_from_slice(b"profile 2\n")
    } else {
        Ok(())
    }
}

/// Appends the canonical spelling of the line of a number, counted from 0, and a line feed. Where
/// memory is wanting, `out` is as before. The number is below theirs.
pub fn write_line(
    alloc: Global,
    script: &Script,
    i: usize,
    out: &mut Vec<u8>,
) -> Result<(), OutOfMemory>
    requires { i < length script.now.lines }
    ensures ok { OnOk result (out.new.items ≡ out.old.items ++ spelled_at script.now (slice_get script.now.lines i)) }
    ensures err { OnErr result (out.new.items ≡ out.old.items) }
{
    let text = line_text(alloc, script, script.lines().get(i))?;
    out.extend_from_slice(&text)
}

/// The canonical spelling of a line, and a line feed.
fn line_text(alloc: Global, script: &Script, line: &Line) -> Result<Vec<u8>, OutOfMemory>
    requires { HasCommands script.now line.now }
    ensures { IfOk result (λ text. text.items ≡ spelled_line script.now line.now) }
{
    // longer than most lines, so that it seldom grows
    let mut text = Vec::with_capacity(alloc, 96)?;
    match line {
        Line::Change { inet, inet6, .. } | Line::Quiet { inet, inet6, .. } => {
            write_at(alloc, script, *inet, *inet6, &mut text)?;
        }
        Line::Get4 { addr, flow, .. } => write_get(alloc, addr, *flow, &mut text)?,
        Line::Get6 { addr, flow, .. } => write_get(alloc, addr, *flow, &mut text)?,
    }
    text.push(b'\n')?;
    Ok(text)
}

/// Appends the words of the command that stands at these positions of the plans.
fn write_at(
    alloc: Global,
    script: &Script,
    inet: Option<u32>,
    inet6: Option<u32>,
    out: &mut Vec<u8>,
) -> Result<(), OutOfMemory>
    requires inet { IfSome inet (λ pos. pos < length script.now.inet.commands) }
    requires inet6 { IfSome inet6 (λ pos. pos < length script.now.inet6.commands) }
    ensures { OnOk result (out.new.items ≡ out.old.items ++ joined (words_at script.now inet inet6)) }
{
    match (inet, inet6) {
        (Some(pos), None) => write_command(alloc, script.inet().command(pos), out),
        (None, Some(pos)) => write_command(alloc, script.inet6().command(pos), out),
        (Some(pos), Some(_)) => write_shared(alloc, script.inet().command(pos), out),
        (None, None) => Ok(()),
    }
}

/// Appends the words of a command that both families get.
fn write_shared(alloc: Global, command: &Command<32>, out: &mut Vec<u8>) -> Result<(), OutOfMemory>
    ensures { OnOk result (out.new.items ≡ out.old.items ++ joined (shared_words command.now)) }
{
    match command {
        Command::Flush => out.extend_from_slice(b"flush"),
        _ => write_command(alloc, command, out),
    }
}

/// Appends the words of a command of one family.
fn write_command<const W: u32>(
    alloc: Global,
    command: &Command<W>,
    out: &mut Vec<u8>,
) -> Result<(), OutOfMemory>
    requires { IsFamilyWidth W }
    ensures { OnOk result (out.new.items ≡ out.old.items ++ joined (command_words command.now)) }
{
    match command {
        Command::Add { prefix, path } => {
            out.extend_from_slice(b"add")?;
            write_route(alloc, prefix, path, out)
        }
        Command::Change { prefix, path } => {
            out.extend_from_slice(b"change")?;
            write_route(alloc, prefix, path, out)
        }
        Command::Delete { prefix, gateway } => {
            out.extend_from_slice(b"delete")?;
            write_destination(alloc, prefix, out)?;
            write_gateway(alloc, *gateway, out)
        }
        Command::Flush => {
            out.extend_from_slice(b"flush")?;
            write_family::<W>(out)
        }
        Command::Tick { ms } => {
            out.extend_from_slice(b"tick")?;
            write_value(*ms, out)
        }
        Command::Sync => out.extend_from_slice(b"sync"),
        Command::Algo { setting } => {
            out.extend_from_slice(b"algo")?;
            write_family::<W>(out)?;
            write_word(module_word(setting), out)
        }
    }
}

/// Appends the words of a lookup.
fn write_get<const W: u32>(
    alloc: Global,
    addr: &Addr<W>,
    flow: u32,
    out: &mut Vec<u8>,
) -> Result<(), OutOfMemory>
    requires { IsFamilyWidth W }
    ensures { OnOk result (out.new.items ≡ out.old.items ++ joined (get_words W addr.now flow)) }
{
    out.extend_from_slice(b"get")?;
    write_family::<W>(out)?;
    write_address(alloc, addr, out)?;
    write_option(b"flow", 0, flow, out)
}

/// Appends destination and target, with a space before each word.
fn write_route<const W: u32>(
    alloc: Global,
    prefix: &Prefix<W>,
    path: &Path<W>,
    out: &mut Vec<u8>,
) -> Result<(), OutOfMemory>
    requires { IsFamilyWidth W }
    ensures { OnOk result (out.new.items ≡ out.old.items ++ spaced (route_words W prefix.now path.now)) }
{
    write_destination(alloc, prefix, out)?;
    write_target(alloc, path, out)
}

/// Appends the family and a prefix, with a space before each.
fn write_destination<const W: u32>(
    alloc: Global,
    prefix: &Prefix<W>,
    out: &mut Vec<u8>,
) -> Result<(), OutOfMemory>
    requires { IsFamilyWidth W }
    ensures { OnOk result (out.new.items ≡ out.old.items ++ spaced (family_word W ∷ prefix_text W prefix.now ∷ [])) }
{
    write_family::<W>(out)?;
    out.push(b' ')?;
    write_prefix(alloc, prefix, out)
}

/// Appends where packets go and how, with a space before each word.
fn write_target<const W: u32>(
    alloc: Global,
    path: &Path<W>,
    out: &mut Vec<u8>,
) -> Result<(), OutOfMemory>
    requires { IsFamilyWidth W }
    ensures { OnOk result (out.new.items ≡ out.old.items ++ spaced (target_words W path.now.nexthop.kind path.now)) }
{
    match path.nexthop().kind() {
        NhKind::Via => {
            write_address(alloc, &path.nexthop().gateway(), out)?;
            write_settings(path, out)
        }
        NhKind::Direct => write_settings(path, out),
        NhKind::Blackhole => write_word(b"-blackhole", out),
        NhKind::Reject => write_word(b"-reject", out),
    }
}

/// Appends interface, MTU and weight where they are told, with a space before each word.
fn write_settings<const W: u32>(path: &Path<W>, out: &mut Vec<u8>) -> Result<(), OutOfMemory>
    ensures { OnOk result (out.new.items ≡ out.old.items ++ spaced (setting_words path.now)) }
{
    write_option(b"-if", 0, u32::from(path.nexthop().iface()), out)?;
    write_option(b"-mtu", 0, path.nexthop().mtu(), out)?;
    write_option(b"-weight", 1, path.weight(), out)
}

/// Appends an option and its value, unless the value is what holds without the option.
fn write_option(
    option: &[u8],
    absent: u32,
    value: u32,
    out: &mut Vec<u8>,
) -> Result<(), OutOfMemory>
    ensures { OnOk result (out.new.items ≡ out.old.items ++ spaced (option_words option.now absent value)) }
{
    if value == absent {
        return Ok(());
    }
    write_word(option, out)?;
    write_value(value, out)
}

/// Appends the gateway, where there is one, with a space before it.
fn write_gateway<const W: u32>(
    alloc: Global,
    gateway: Option<Addr<W>>,
    out: &mut Vec<u8>,
) -> Result<(), OutOfMemory>
    requires { IsFamilyWidth W }
    ensures { OnOk result (out.new.items ≡ out.old.items ++ spaced (gateway_words W gateway.entry)) }
{
    match gateway {
        None => Ok(()),
        Some(addr) => write_address(alloc, &addr, out),
    }
}

/// Appends an address with a space before it.
fn write_address<const W: u32>(
    alloc: Global,
    addr: &Addr<W>,
    out: &mut Vec<u8>,
) -> Result<(), OutOfMemory>
    requires { IsFamilyWidth W }
    ensures { OnOk result (out.new.items ≡ out.old.items ++ spaced (address_text W addr.now ∷ [])) }
{
    out.push(b' ')?;
    write_addr(alloc, addr, out)
}

/// Appends a number with a space before it.
fn write_value(number: u32, out: &mut Vec<u8>) -> Result<(), OutOfMemory>
    ensures { OnOk result (out.new.items ≡ out.old.items ++ spaced (decimal number ∷ [])) }
{
    out.push(b' ')?;
    write_number(number, out)
}

/// Appends the word of a family with a space before it.
fn write_family<const W: u32>(out: &mut Vec<u8>) -> Result<(), OutOfMemory>
    ensures { OnOk result (out.new.items ≡ out.old.items ++ spaced (family_word W ∷ [])) }
{
    if W == 32 {
        write_word(b"-inet", out)
    } else {
        write_word(b"-inet6", out)
    }
}

/// Appends a word with a space before it.
fn write_word(word: &[u8], out: &mut Vec<u8>) -> Result<(), OutOfMemory>
    ensures { OnOk result (out.new.items ≡ out.old.items ++ spaced (word.now ∷ [])) }
{
    out.push(b' ')?;
    out.extend_from_slice(word)
}

fn module_word(setting: &Setting) -> &'static [u8]
    ensures { result.now ≡ module_word setting.now }
{
    match setting {
        Setting::Auto => b"auto",
        Setting::Fixed(Kind::Scan) => b"scan",
        Setting::Fixed(Kind::Range) => b"range",
        Setting::Fixed(Kind::Radix) => b"radix",
        Setting::Fixed(Kind::Dxr) => b"dxr",
    }
}

/// Law: the spelled text of a script that bytes are, where it has at most [`INPUT_MAX`] bytes, is
/// read as that script with its lines numbered in turn: from 1 on, or from 2 on in profile 2, whose
/// line comes first.
///
/// [`INPUT_MAX`]: crate::INPUT_MAX
pub fn law_shown_text_reads_back()
    ensures { ShownTextReadsBack }
{}
