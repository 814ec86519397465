//! A family's replay with its packets.
ghost use Rattle.std.specs.Prelude.{◌≡◌, ◌++◌, [], IfOk, IfSome, OnOk, OnErr, is_some, length, option_to_list};
ghost use Rattle.std.specs.Arc.{arc_value};
ghost use Rattle.std.specs.List.{flat_map};
ghost use Rattle.addr_text.specs.Address.{IsFamilyWidth};
ghost use Rattle.prefix_width.specs.Limits.{AreBanks, AreTargets};
ghost use Rattle.prefix_width.specs.Order.{hop_cmp};
ghost use Rattle.counted_map.specs.Counts.{linked_all};
ghost use Rattle.rib_store.specs.Limits.{routes_max};
ghost use Rattle.plan_cut.specs.PlanCourse.{version_before};
ghost use Rattle.plan_cut.specs.VersionTable.{answer_at};
ghost use Rattle.replay_run.specs.Family.{FlushesAtMost, IsNext};
ghost use Rattle.replay_run.specs.Line.{packets_text};
ghost use Rattle.replay_run.specs.Output.{answered, plan_text, reply_of};
ghost use Rattle.replay_run.specs.Replay.{HasBegun, HasRoom, HasRunLine};

use crate::OutOfMemory;
use crate::family::Family;
use crate::output::{write_fib, write_get, write_packets};
use counted_map::CountedMap;
use module_trait::Steps;
use prefix_width::{Addr, Nexthop};
use rib_store::{Plan, Reply};
use std::alloc::Global;
use std::sync::Arc;
use std::sync::ledger::Ledger;

/// One family of a replay under way: what its commands have left, and the packets of its gets.
#[derive(Drop)]
pub(crate) struct FamilyReplay<const W: u32, const K: u64, const LIVE: u32> {
    pub(crate) family: Family<W, K, LIVE>,
    /// How many gets each nexthop was given to.
    pub(crate) packets: CountedMap<Nexthop<W>>,
}

impl<const W: u32, const K: u64, const LIVE: u32> FamilyReplay<W, K, LIVE> {
    /// Nothing was done.
    pub(crate) fn begin(alloc: Global, plan: &Arc<Plan<W>>) -> Result<Self, OutOfMemory>
        requires banks { AreBanks K }
        requires targets { AreTargets LIVE }
        ensures { IfOk result (HasBegun (arc_value plan.now)) }
    {
        Ok(FamilyReplay {
            family: Family::begin(alloc, plan)?,
            packets: CountedMap::new(alloc),
        })
    }

    /// Takes the command of a line, if it has one in this plan, and gives its reply. Where memory is
    /// wanting it is not taken.
    pub(crate) fn run_line(
        &mut self,
        alloc: Global,
        position: Option<u32>,
    ) -> Result<Option<Reply>, OutOfMemory>
        requires { IsNext position self.old.family.commands (length self.old.family.plan.commands) }
        ensures run { OnOk result (HasRunLine position self.old self.new) }
        ensures reply { IfOk result (λ reply. reply ≡ reply_of LIVE self.old.family.plan position) }
        ensures flushes { IfOk result (λ reply. IfSome reply (FlushesAtMost routes_max)) }
        ensures err { OnErr result (self.new.family.commands ≡ self.old.family.commands) }
        ensures packets { self.new.packets ≡ self.old.packets }
    {
        if position.is_none() {
            return Ok(None);
        }
        let reply = self.family.take(alloc)?;
        Ok(Some(reply))
    }

    /// Answers a get at the last version: appends its line, and counts its packet. Where memory is
    /// wanting no packet was counted.
    pub(crate) fn answer_get<L: Ledger>(
        &mut self,
        alloc: Global,
        line: u32,
        addr: &Addr<W>,
        flow: u32,
        steps: &mut Steps<L>,
        out: &mut Vec<u8>,
    ) -> Result<(), OutOfMemory>
        requires width { IsFamilyWidth W }
        requires room { HasRoom self.old.packets 1 }
        ensures family { self.new.family ≡ self.old.family }
        ensures packets { OnOk result (self.new.packets ≡ linked_all hop_cmp self.old.packets (option_to_list (answer_at LIVE self.old.family.plan (version_before LIVE self.old.family.plan self.old.family.commands) addr.now flow))) }
        ensures out { OnOk result (out.new.items ≡ out.old.items ++ answered LIVE self.old.family.plan (version_before LIVE self.old.family.plan self.old.family.commands) line addr.now flow) }
        ensures err { OnErr result (self.new.packets ≡ self.old.packets) }
    {
        let nexthop = self.family.answer(addr, flow, steps);
        write_get(
            alloc,
            line,
            addr,
            self.family.version(),
            nexthop.as_ref(),
            out,
        )?;
        count_packet(&mut self.packets, nexthop)
    }

    /// Counts the packet of a get at the last version, and says whether it has a nexthop. Where memory
    /// is wanting none was counted.
    pub(crate) fn count_get<L: Ledger>(
        &mut self,
        addr: &Addr<W>,
        flow: u32,
        steps: &mut Steps<L>,
    ) -> Result<bool, OutOfMemory>
        requires room { HasRoom self.old.packets 1 }
        ensures family { self.new.family ≡ self.old.family }
        ensures packets { OnOk result (self.new.packets ≡ linked_all hop_cmp self.old.packets (option_to_list (answer_at LIVE self.old.family.plan (version_before LIVE self.old.family.plan self.old.family.commands) addr.now flow))) }
        ensures answered { IfOk result (λ answered. answered ≡ is_some (answer_at LIVE self.old.family.plan (version_before LIVE self.old.family.plan self.old.family.commands) addr.now flow)) }
        ensures err { OnErr result (self.new.packets ≡ self.old.packets) }
    {
        let found = self.family.answer(addr, flow, steps);
        let answered = found.is_some();
        count_packet(&mut self.packets, found)?;
        Ok(answered)
    }

    /// Appends the line of each nexthop's packets, in nexthop order.
    pub(crate) fn write_packets(&self, alloc: Global, out: &mut Vec<u8>) -> Result<(), OutOfMemory>
        requires { IsFamilyWidth W }
        ensures { OnOk result (out.new.items ≡ out.old.items ++ flat_map (packets_text W) self.now.packets) }
    {
        for (nexthop, count) in self.packets.iter() {
            write_packets(alloc, u64::from(*count), nexthop, out)?;
        }
        Ok(())
    }

    /// Appends the line of the last version of the plan, all of whose commands were taken.
    pub(crate) fn finish(self, alloc: Global, out: &mut Vec<u8>) -> Result<(), OutOfMemory>
        requires width { IsFamilyWidth W }
        requires all { self.family.commands ≡ length self.family.plan.commands }
        ensures { OnOk result (out.new.items ≡ out.old.items ++ plan_text LIVE self.entry.family.plan) }
    {
        let last = self.family.finish(alloc)?;
        write_fib::<W>(last.version, last.routes, last.kind, out)
    }
}

/// Counts a packet for the nexthop of a get, if there is one.
fn count_packet<const W: u32>(
    packets: &mut CountedMap<Nexthop<W>>,
    nexthop: Option<Nexthop<W>>,
) -> Result<(), OutOfMemory>
    requires { HasRoom packets.old 1 }
    ensures ok { OnOk result (packets.new ≡ linked_all hop_cmp packets.old (option_to_list nexthop.entry)) }
    ensures err { OnErr result (packets.new ≡ packets.old) }
{
    let Some(nexthop) = nexthop else {
        return Ok(());
    };
    if packets.increase(&nexthop) {
        return Ok(());
    }
    packets.insert(nexthop)
}
