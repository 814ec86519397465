//! The commands of a family.
ghost use Rattle.std.specs.Prelude.{◌≡◌, ◌-◌, ◌<◌, ◌≤◌, ◌↔◌, All, OnOk, OnErr, IsErrOf, IsSome, Contains, [], length, slice_get, Some};
ghost use Rattle.rib_store.specs.Limits.{plan_max};
ghost use Rattle.rib_store.specs.Plan.{IsWrongModule, IsNumbering, named, firsts, no_plan, number_of, plan_under, plan_with, with_first};
ghost use Rattle.rib_store.specs.Profile.{IsProfile};
ghost use Rattle.rib_store.specs.Weights.{IsWeighted};

use crate::OutOfMemory;
use crate::command::Command;
use prefix_width::Nexthop;
use std::alloc::{AllocError, AllocFailed, Global};
use std::collections::BTreeMap;
use std::collections::btree_map::Entry;
use std::marker::Model;
use thiserror::Error;

/// How many commands a plan may have.
pub const PLAN_MAX: u32 = 1_048_576;

/// Why a command was not put into a plan.
#[derive(Clone, Copy, Debug, PartialEq, Eq, Error)]
pub enum PushError {
    /// The command sets dxr, which is for 32 bits alone.
    #[error("no such module")]
    WrongModule,
    /// The plan has [`PLAN_MAX`] commands.
    #[error("plan full")]
    PlanFull,
    /// Memory is wanting.
    #[error("out of memory")]
    OutOfMemory,
}

impl<T: Drop> From<AllocFailed<T>> for PushError {
    ghost use Rattle.std.specs.Prelude.{◌≡◌};
    ghost use Rattle.rib_store.specs.declared.plan.PushError.TheVariants.{OutOfMemory};

    ghost from_gives = { λ _ e. e ≡ OutOfMemory };

    fn from(_: AllocFailed<T>) -> Self {
        PushError::OutOfMemory
    }
}

impl From<AllocError> for PushError {
    ghost use Rattle.std.specs.Prelude.{◌≡◌};
    ghost use Rattle.rib_store.specs.declared.plan.PushError.TheVariants.{OutOfMemory};

    ghost from_gives = { λ _ e. e ≡ OutOfMemory };

    fn from(_: AllocError) -> Self {
        PushError::OutOfMemory
    }
}

/// The commands of a family in their order, at most [`PLAN_MAX`], none of which sets dxr where `W`
/// isn't 32. The nexthops that its `Add` and `Change` commands name are numbered from 1 by first
/// appearance.
#[derive(Debug, Drop)]
pub struct Plan<const W: u32> {
    profile: u8,
    commands: Vec<Command<W>>,
    // The nexthop of number n stands at n - 1.
    nexthops: Vec<Nexthop<W>>,
    numbers: BTreeMap<Nexthop<W>, u32>,
}

impl<const W: u32> Model for Plan<W> {
    ghost use Rattle.rib_store.specs.Plan.{IsPlan, Planned};

    ghost Value = { Planned W };

    ghost view = { λ p. record { profile = p.profile; commands = p.commands.items } };

    ghost invariant = { λ p. IsPlan (record { profile = p.profile; commands = p.commands.items }) p.nexthops.items p.numbers.entries };
}

impl<const W: u32> Plan<W> {
    /// The empty plan of profile 1.
    pub fn new(alloc: Global) -> Plan<W>
        ensures { result ≡ no_plan 1 }
    {
        Plan::with_profile(alloc, 1)
    }

    /// The empty plan of a profile: of 1, where a group that a path leaves gets a new layout, or of
    /// 2, where the paths that are left keep their slots.
    pub fn with_profile(alloc: Global, profile: u8) -> Plan<W>
        requires { IsProfile profile }
        ensures { result ≡ no_plan profile }
    {
        Plan {
            profile,
            commands: Vec::new(alloc),
            nexthops: Vec::new(alloc),
            numbers: BTreeMap::new(alloc),
        }
    }

    /// The profile, 1 or 2.
    pub fn profile(&self) -> u8
        ensures value { result ≡ self.now.profile }
        ensures range { IsProfile result }
    {
        self.profile
    }

    /// Gives the plan another profile, 1 or 2. The commands stay.
    pub fn set_profile(&mut self, profile: u8)
        requires { IsProfile profile }
        ensures { self.new ≡ plan_under profile self.old }
    {
        self.profile = profile;
    }

    /// Puts a command behind the others. After an error the plan is as before.
    pub fn push(&mut self, command: Command<W>) -> Result<(), PushError>
        ensures ok { OnOk result (self.new ≡ plan_with self.old command.entry) }
        ensures err { OnErr result (self.new ≡ self.old) }
        ensures wrong_module { IsErrOf result PushError.WrongModule ↔ IsWrongModule command.entry }
        ensures full { IsErrOf result PushError.PlanFull
            ↔ (¬ (IsWrongModule command.entry) × (length self.old.commands ≡ plan_max)) }
    {
        if W != 32 && command.sets_dxr() {
            return Err(PushError::WrongModule);
        }
        if self.commands.len() == PLAN_MAX as usize {
            return Err(PushError::PlanFull);
        }
        self.commands.reserve(1)?;
        give_number(&mut self.nexthops, &mut self.numbers, command.nexthop())?;
        self.commands.push(command)?;
        Ok(())
    }

    /// How many commands there are, at most [`PLAN_MAX`], and what every plan knows of them: the
    /// paths have weights that their kinds may have.
    pub fn len(&self) -> u32
        ensures count { result ≡ length self.now.commands }
        ensures most { result ≤ plan_max }
        ensures weights { All IsWeighted self.now.commands }
    {
        self.commands.len() as u32
    }

    /// The command at a position, counted from 0. The position is below their number.
    pub fn command(&self, pos: u32) -> &Command<W>
        requires { pos < length self.now.commands }
        ensures command { slice_get self.now.commands pos ≡ Some result.now }
        ensures most { length self.now.commands ≤ plan_max }
        ensures module { ¬ (IsWrongModule result.now) }
    {
        &self.commands[pos as usize]
    }

    /// How many distinct nexthops its `Add` and `Change` commands name, at most [`PLAN_MAX`].
    pub fn nexthops(&self) -> u32
        ensures count { result ≡ length (firsts (named self.now)) }
        ensures most { result ≤ plan_max }
    {
        self.nexthops.len() as u32
    }

    /// The number of a nexthop, counted from 1 by first appearance. `None` exactly where no `Add`
    /// or `Change` names it.
    pub fn number_of(&self, nexthop: &Nexthop<W>) -> Option<u32>
        ensures number { result ≡ number_of self.now nexthop.now }
        ensures named { IsSome result ↔ Contains (named self.now) nexthop.now }
    {
        self.numbers.get(nexthop).copied()
    }

    /// The nexthop of a number, counted from 1. The number is given to one.
    pub fn nexthop(&self, number: u32) -> &Nexthop<W>
        requires some { 1 ≤ number }
        requires given { number ≤ length (firsts (named self.now)) }
        ensures { slice_get (firsts (named self.now)) (number - 1) ≡ Some result.now }
    {
        &self.nexthops[number as usize - 1]
    }
}

/// Gives the nexthop, if there is one, the next number, if it has none yet. Where memory is
/// wanting, nothing changes.
fn give_number<const W: u32>(
    nexthops: &mut Vec<Nexthop<W>>,
    numbers: &mut BTreeMap<Nexthop<W>, u32>,
    nexthop: Option<Nexthop<W>>,
) -> Result<(), OutOfMemory>
    requires numbering { IsNumbering nexthops.old.items numbers.old.entries }
    requires room { length nexthops.old.items < plan_max }
    ensures ok { OnOk result (nexthops.new.items ≡ with_first nexthops.old.items nexthop.entry) }
    ensures numbering { IsNumbering nexthops.new.items numbers.new.entries }
    ensures err { OnErr result (nexthops.new.items ≡ nexthops.old.items) }
    ensures same { OnErr result (numbers.new.entries ≡ numbers.old.entries) }
{
    let Some(nexthop) = nexthop else {
        return Ok(());
    };
    match numbers.entry(nexthop)? {
        Entry::Occupied(_) => {}
        Entry::Vacant(place) => {
            nexthops.push(nexthop)?;
            place.insert(nexthops.len() as u32);
        }
    }
    Ok(())
}
