//! A script is replayed on one thread.
ghost use Rattle.std.specs.Prelude.{◌≡◌, ◌++◌, ◌+◌, ◌<◌, IfOk, OnOk, [], length, drop};
ghost use Rattle.route_lang.specs.Script.{Reading};
ghost use Rattle.replay_run.specs.Family.{IsNext};
ghost use Rattle.replay_run.specs.Limits.{targets_max};
ghost use Rattle.replay_run.specs.Output.{one_reply, plan_text, reply_of, serial_output};
ghost use Rattle.replay_run.specs.Replay.{HasBegun, HasRunLine, IsUnderWay, lines_text};

use crate::family_replay::FamilyReplay;
use crate::replies::{one_reply, write_one_reply};
use crate::{BANKS, OutOfMemory, TARGETS_MAX};
use module_trait::Steps;
use rib_store::Reply;
use route_lang::{Line, Script};
use std::alloc::Global;
use std::marker::Brand;
use std::sync::ledger::{Blank, Ledger};

/// The output of a script on one thread: each get is answered by the image of its family's last
/// version, whatever module that has. A table has room for [`TARGETS_MAX`] live targets.
pub fn serial(alloc: Global, script: &Script) -> Result<Vec<u8>, OutOfMemory>
    ensures { IfOk result (λ text. text.items ≡ serial_output targets_max script.now) }
{
    serial_by::<Brand>(alloc, script, Blank::new(1))
}

/// The output, where the reads of lookups are counted in the ledger that the blank is for.
fn serial_by<L: Ledger>(
    alloc: Global,
    script: &Script,
    blank: Blank,
) -> Result<Vec<u8>, OutOfMemory>
    requires name { blank.name ≡ L.name }
    requires parts { blank.parts ≡ L.parts }
    requires some { 0 < blank.parts }
    ensures { IfOk result (λ text. text.items ≡ serial_output targets_max script.now) }
{
    let mut replay = Replay::begin(alloc, script, Steps::<L>::new(alloc, blank)?)?;
    let mut out = Vec::new(alloc);
    for i in 0..script.lines().len() {
        replay.take_line(alloc, script, i, &mut out)?;
    }
    replay.finish(alloc, out)
}

/// A replay under way.
#[derive(Drop)]
pub(crate) struct Replay<L: Ledger> {
    pub(crate) inet: FamilyReplay<32, BANKS, TARGETS_MAX>,
    pub(crate) inet6: FamilyReplay<128, BANKS, TARGETS_MAX>,
    // The reads of all lookups.
    pub(crate) steps: Steps<L>,
}

impl<L: Ledger> Replay<L> {
    /// No line is taken.
    pub(crate) fn begin(
        alloc: Global,
        script: &Script,
        steps: Steps<L>,
    ) -> Result<Replay<L>, OutOfMemory>
        ensures inet { IfOk result (λ replay. HasBegun script.now.inet replay.inet) }
        ensures inet6 { IfOk result (λ replay. HasBegun script.now.inet6 replay.inet6) }
    {
        Ok(Replay {
            inet: FamilyReplay::begin(alloc, script.inet())?,
            inet6: FamilyReplay::begin(alloc, script.inet6())?,
            steps,
        })
    }

    /// Takes the line of a number, counted from 0, and appends what is written for it.
    fn take_line(
        &mut self,
        alloc: Global,
        script: &Script,
        i: usize,
        out: &mut Vec<u8>,
    ) -> Result<(), OutOfMemory>
        requires line { i < length script.now.lines }
        requires before { IsUnderWay script.now (drop i script.now.lines) self.old }
        ensures after { OnOk result (IsUnderWay script.now (drop (i + 1) script.now.lines) self.new) }
        ensures text { OnOk result (out.new.items ++ lines_text script.now (drop (i + 1) script.now.lines) ≡ out.old.items ++ lines_text script.now (drop i script.now.lines)) }
    {
        match *script.lines().get(i) {
            Line::Change { line, inet, inet6 } => {
                let reply = self.run(alloc, inet, inet6)?;
                write_one_reply(line, reply, out)
            }
            Line::Quiet {
                line: _,
                inet,
                inet6,
            } => {
                self.run(alloc, inet, inet6)?;
                Ok(())
            }
            Line::Get4 {
                line,
                addr,
                flow,
                at: _,
            } => self
                .inet
                .answer_get(alloc, line, &addr, flow, &mut self.steps, out),
            Line::Get6 {
                line,
                addr,
                flow,
                at: _,
            } => self
                .inet6
                .answer_get(alloc, line, &addr, flow, &mut self.steps, out),
        }
    }

    /// Takes the commands of a line, and gives their one reply. No packet is counted, also where
    /// memory is wanting.
    pub(crate) fn run(
        &mut self,
        alloc: Global,
        inet: Option<u32>,
        inet6: Option<u32>,
    ) -> Result<Option<Reply>, OutOfMemory>
        requires inet { IsNext inet self.old.inet.family.commands (length self.old.inet.family.plan.commands) }
        requires inet6 { IsNext inet6 self.old.inet6.family.commands (length self.old.inet6.family.plan.commands) }
        ensures inet { OnOk result (HasRunLine inet self.old.inet self.new.inet) }
        ensures inet6 { OnOk result (HasRunLine inet6 self.old.inet6 self.new.inet6) }
        ensures reply { IfOk result (λ reply. reply ≡ one_reply (reply_of targets_max self.old.inet.family.plan inet) (reply_of targets_max self.old.inet6.family.plan inet6)) }
        ensures packets { self.new.inet.packets ≡ self.old.inet.packets }
        ensures packets6 { self.new.inet6.packets ≡ self.old.inet6.packets }
    {
        let reply = self.inet.run_line(alloc, inet)?;
        let reply6 = self.inet6.run_line(alloc, inet6)?;
        Ok(one_reply(reply, reply6))
    }

    /// The text of all lines, with what comes behind them.
    fn finish(self, alloc: Global, mut out: Vec<u8>) -> Result<Vec<u8>, OutOfMemory>
        requires inet { self.inet.family.commands ≡ length self.inet.family.plan.commands }
        requires inet6 { self.inet6.family.commands ≡ length self.inet6.family.plan.commands }
        ensures { (script : Reading) → IsUnderWay script [] self → out.items ≡ lines_text script script.lines → IfOk result (λ text. text.items ≡ serial_output targets_max script) }
    {
        self.inet.write_packets(alloc, &mut out)?;
        self.inet6.write_packets(alloc, &mut out)?;
        self.write_last(alloc, &mut out)?;
        Ok(out)
    }

    /// Appends the lines of the last versions of both plans, all of whose commands were taken.
    pub(crate) fn write_last(self, alloc: Global, out: &mut Vec<u8>) -> Result<(), OutOfMemory>
        requires inet { self.inet.family.commands ≡ length self.inet.family.plan.commands }
        requires inet6 { self.inet6.family.commands ≡ length self.inet6.family.plan.commands }
        ensures { OnOk result (out.new.items ≡ (out.old.items ++ plan_text targets_max self.inet.family.plan) ++ plan_text targets_max self.inet6.family.plan) }
    {
        let Replay {
            inet,
            inet6,
            steps: _,
        } = self;
        inet.finish(alloc, out)?;
        inet6.finish(alloc, out)
    }
}
