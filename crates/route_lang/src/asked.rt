//! What the words of a line ask for.
ghost use Rattle.std.specs.Prelude.{◌≡◌, ◌≤◌, IfSome, IfOk, unwrap_or};
ghost use Rattle.std.specs.List.{list_any};
ghost use Rattle.addr_text.specs.Address.{IsFamilyWidth};
ghost use Rattle.addr_text.specs.PrefixText.{is_slash};
ghost use Rattle.rib_store.specs.Plan.{IsWrongModule};
ghost use Rattle.route_lang.specs.Reader.Asked.{agrees, destination_of, gateway_of, address_asked, path_asked, add_of, change_of, delete_of, setting_asked, IsModuleOf, algo_of, tick_of, get_of, profile_asked, asked_by, is_profile, IsOfForm};
ghost use Rattle.route_lang.specs.Grammar.{is_alone, leading, setting_of};
ghost use Rattle.route_lang.specs.Reader.Walk.{met_by, InRange};

use crate::fault::Reason;
use crate::verb::{Flag, Verb};
use crate::walk::Walk;
use addr_text::{read_addr, read_number, read_prefix};
use prefix_width::{Addr, Kind, Nexthop, Path, Prefix, Setting};
use rib_store::Command;

/// What a line asks for.
#[derive(Clone, Copy, Debug, PartialEq, Eq)]
pub(crate) enum Asked {
    /// A blank line or a comment.
    Nothing,
    /// A command of IPv4.
    Inet(Command<32>),
    /// A command of IPv6.
    Inet6(Command<128>),
    /// A command of both families.
    Both(Shared),
    /// An IPv4 address to be looked up.
    Get4 { addr: Addr<32>, flow: u32 },
    /// An IPv6 address to be looked up.
    Get6 { addr: Addr<128>, flow: u32 },
    /// The profile of the script, 1 or 2.
    Profile(u8),
}

impl Asked {
    /// Whether this is the profile of the script.
    pub(crate) fn is_profile(&self) -> bool
        ensures { result ≡ is_profile self.now }
    {
        matches!(self, Asked::Profile(_))
    }
}

/// A command that both families get.
#[derive(Clone, Copy, Debug, PartialEq, Eq)]
pub(crate) enum Shared {
    Flush,
    Tick { ms: u32 },
    Sync,
}

/// What a command asks for, after the walk over its words.
pub(crate) fn asked_by(verb: Verb, walk: &Walk<'_>) -> Result<Asked, Reason>
    requires { InRange walk.now }
    ensures value { result ≡ asked_by verb (met_by walk.now) }
    ensures form { IfOk result IsOfForm }
{
    let inet6 = walk.is_inet6();
    match verb {
        Verb::Add if inet6 => Ok(Asked::Inet6(add(walk)?)),
        Verb::Add => Ok(Asked::Inet(add(walk)?)),
        Verb::Change if inet6 => Ok(Asked::Inet6(change(walk)?)),
        Verb::Change => Ok(Asked::Inet(change(walk)?)),
        Verb::Delete if inet6 => Ok(Asked::Inet6(delete(walk)?)),
        Verb::Delete => Ok(Asked::Inet(delete(walk)?)),
        Verb::Algo if inet6 => Ok(Asked::Inet6(algo(walk)?)),
        Verb::Algo => Ok(Asked::Inet(algo(walk)?)),
        Verb::Get => get(walk),
        Verb::Flush if walk.family.is_none() => Ok(Asked::Both(Shared::Flush)),
        Verb::Flush if inet6 => Ok(Asked::Inet6(Command::Flush)),
        Verb::Flush => Ok(Asked::Inet(Command::Flush)),
        Verb::Tick => tick(walk),
        Verb::Sync => Ok(Asked::Both(Shared::Sync)),
        Verb::Profile => profile(walk),
    }
}

fn profile(walk: &Walk<'_>) -> Result<Asked, Reason>
    ensures value { result ≡ profile_asked (met_by walk.now) }
    ensures form { IfOk result IsOfForm }
{
    let Some(word) = walk.first else {
        return Err(Reason::MissingWord);
    };
    if word == b"1".as_slice() {
        return Ok(Asked::Profile(1));
    }
    if word == b"2".as_slice() {
        return Ok(Asked::Profile(2));
    }
    Err(Reason::BadNumber)
}

fn tick(walk: &Walk<'_>) -> Result<Asked, Reason>
    ensures { result ≡ tick_of (met_by walk.now) }
{
    let Some(word) = walk.first else {
        return Err(Reason::MissingWord);
    };
    match read_number(word) {
        Some(ms) => Ok(Asked::Both(Shared::Tick { ms })),
        None => Err(Reason::BadNumber),
    }
}

fn get(walk: &Walk<'_>) -> Result<Asked, Reason>
    ensures { result ≡ get_of (met_by walk.now) }
{
    let flow = walk.flow.unwrap_or(0);
    if walk.is_inet6() {
        let addr = address::<128>(walk)?;
        Ok(Asked::Get6 { addr, flow })
    } else {
        let addr = address::<32>(walk)?;
        Ok(Asked::Get4 { addr, flow })
    }
}

fn add<const W: u32>(walk: &Walk<'_>) -> Result<Command<W>, Reason>
    requires width { IsFamilyWidth W }
    requires range { InRange walk.now }
    ensures value { result ≡ add_of W (met_by walk.now) }
    ensures module { IfOk result (λ c. ¬ (IsWrongModule c)) }
{
    let prefix = destination(walk)?;
    let path = path(walk)?;
    Ok(Command::Add { prefix, path })
}

fn change<const W: u32>(walk: &Walk<'_>) -> Result<Command<W>, Reason>
    requires width { IsFamilyWidth W }
    requires range { InRange walk.now }
    ensures value { result ≡ change_of W (met_by walk.now) }
    ensures module { IfOk result (λ c. ¬ (IsWrongModule c)) }
{
    let prefix = destination(walk)?;
    let path = path(walk)?;
    Ok(Command::Change { prefix, path })
}

fn delete<const W: u32>(walk: &Walk<'_>) -> Result<Command<W>, Reason>
    requires width { IsFamilyWidth W }
    requires range { InRange walk.now }
    ensures value { result ≡ delete_of W (met_by walk.now) }
    ensures module { IfOk result (λ c. ¬ (IsWrongModule c)) }
{
    let prefix = destination(walk)?;
    let gateway = gateway(walk)?;
    Ok(Command::Delete { prefix, gateway })
}

fn algo<const W: u32>(walk: &Walk<'_>) -> Result<Command<W>, Reason>
    requires width { IsFamilyWidth W }
    requires range { InRange walk.now }
    ensures value { result ≡ algo_of W (met_by walk.now) }
    ensures module { IfOk result (λ c. ¬ (IsWrongModule c)) }
{
    let setting = setting::<W>(walk)?;
    Ok(Command::Algo { setting })
}

/// The prefix of the destination.
fn destination<const W: u32>(walk: &Walk<'_>) -> Result<Prefix<W>, Reason>
    requires { IsFamilyWidth W }
    ensures { result ≡ destination_of W (met_by walk.now) }
{
    let Some(word) = walk.first else {
        return Err(Reason::MissingWord);
    };
    let Some(prefix) = read_prefix(word) else {
        return Err(Reason::BadAddress);
    };
    if agrees(walk.extent, word, &prefix) {
        Ok(prefix)
    } else {
        Err(Reason::BadLength)
    }
}

/// Whether `-net` or `-host` agrees with a destination.
fn agrees<const W: u32>(extent: Option<Flag>, word: &[u8], prefix: &Prefix<W>) -> bool
    ensures { result ≡ agrees W extent word.now prefix.now }
{
    match extent {
        Some(Flag::Net) => !is_alone(word),
        Some(Flag::Host) => u32::from(prefix.len()) == W,
        _ => true,
    }
}

/// Whether a destination is an address alone.
fn is_alone(word: &[u8]) -> bool
    ensures { result ≡ is_alone word.now }
{
    !(word == b"default".as_slice() || has_slash(word))
}

fn has_slash(word: &[u8]) -> bool
    ensures { result ≡ list_any is_slash word.now }
{
    word.iter().any(|byte| *byte == b'/')
}

/// The gateway, where there is one.
fn gateway<const W: u32>(walk: &Walk<'_>) -> Result<Option<Addr<W>>, Reason>
    requires { IsFamilyWidth W }
    ensures { result ≡ gateway_of W (met_by walk.now) }
{
    let Some(word) = walk.second else {
        return Ok(None);
    };
    match read_addr(word) {
        Some(addr) => Ok(Some(addr)),
        None => Err(Reason::BadAddress),
    }
}

/// The address of a get.
fn address<const W: u32>(walk: &Walk<'_>) -> Result<Addr<W>, Reason>
    requires { IsFamilyWidth W }
    ensures { result ≡ address_asked W (met_by walk.now) }
{
    let Some(word) = walk.first else {
        return Err(Reason::MissingWord);
    };
    match read_addr(word) {
        Some(addr) => Ok(addr),
        None => Err(Reason::BadAddress),
    }
}

/// The path that options and words give.
fn path<const W: u32>(walk: &Walk<'_>) -> Result<Path<W>, Reason>
    requires width { IsFamilyWidth W }
    requires range { InRange walk.now }
    ensures { result ≡ path_asked W (met_by walk.now) }
{
    let gateway = gateway(walk)?;
    match walk.discard {
        Some(Flag::Blackhole) => Ok(lone(Nexthop::blackhole())),
        Some(Flag::Reject) => Ok(lone(Nexthop::reject())),
        _ => leading(walk, gateway),
    }
}

/// A path of weight 1.
fn lone<const W: u32>(nexthop: Nexthop<W>) -> Path<W>
    ensures { result ≡ record { nexthop = nexthop.entry; weight = 1 } }
{
    Path::new(nexthop, 1).unwrap()
}

/// A path to a gateway or, without one, to the destination itself on an interface.
fn leading<const W: u32>(walk: &Walk<'_>, gateway: Option<Addr<W>>) -> Result<Path<W>, Reason>
    requires width { IsFamilyWidth W }
    requires range { InRange walk.now }
    ensures { result ≡ leading gateway.entry walk.now.iface (unwrap_or walk.now.mtu 0) (unwrap_or walk.now.weight 1) }
{
    // at most 65,535, so nothing is lost
    let iface = walk.iface.unwrap_or(0) as u16;
    let mtu = walk.mtu.unwrap_or(0);
    let nexthop = match gateway {
        Some(gateway) => Nexthop::via(gateway, iface, mtu),
        None => match Nexthop::direct(iface, mtu) {
            Some(nexthop) => nexthop,
            None => return Err(Reason::NoTarget),
        },
    };
    Ok(Path::new(nexthop, walk.weight.unwrap_or(1)).unwrap())
}

/// The module setting of an `algo`.
fn setting<const W: u32>(walk: &Walk<'_>) -> Result<Setting, Reason>
    ensures value { result ≡ setting_asked W (met_by walk.now) }
    ensures module { IfOk result (IsModuleOf W) }
{
    let Some(word) = walk.first else {
        return Err(Reason::MissingWord);
    };
    match setting_by_name::<W>(word) {
        Some(setting) => Ok(setting),
        None => Err(Reason::NoModule),
    }
}

/// The module setting that a word names.
fn setting_by_name<const W: u32>(word: &[u8]) -> Option<Setting>
    ensures value { result ≡ setting_of W word.now }
    ensures module { IfSome result (IsModuleOf W) }
{
    if word == b"auto".as_slice() {
        return Some(Setting::Auto);
    }
    if word == b"scan".as_slice() {
        return Some(Setting::Fixed(Kind::Scan));
    }
    if word == b"range".as_slice() {
        return Some(Setting::Fixed(Kind::Range));
    }
    if word == b"radix".as_slice() {
        return Some(Setting::Fixed(Kind::Radix));
    }
    if word == b"dxr".as_slice() && W == 32 {
        return Some(Setting::Fixed(Kind::Dxr));
    }
    None
}
