//! Commands are run on the table.
ghost use Rattle.std.specs.Prelude.{◌≡◌, ℕ, ◌+◌, ◌^◌, ◌<◌, not, true, false, length, [], Some, slice_get, OnOk, OnErr};
ghost use Rattle.std.specs.Arc.{arc_value};
ghost use Rattle.prefix_width.specs.Choice.{SettingSuits, Suits, is_kind};
ghost use Rattle.prefix_width.specs.Limits.{AreTargets};
ghost use Rattle.rib_store.specs.Plan.{IsWrongModule};
ghost use Rattle.plan_cut.specs.PlanCourse.{set_by};
ghost use Rattle.fib_sync.specs.Running.{Ends, GoesOn, IsRun, kept_by};

use crate::OutOfMemory;
use engine_set::choose;
use plan_cut::{Cut, Cutter, accepted};
use prefix_width::{Kind, Setting};
use rib_store::{Command, Plan, Reply, Rib};
use std::alloc::Global;
use std::marker::Model;
use std::sync::Arc;

/// A version that was made: its number, how many commands it counts, its module, and whether the
/// plan's end made it.
#[derive(Clone, Copy)]
pub(crate) struct Made {
    pub(crate) number: u64,
    pub(crate) count: u32,
    pub(crate) kind: Kind,
    pub(crate) at_end: bool,
}

/// Runs the commands of a plan one after another, and finds which versions they make. `LIVE` is the
/// most live targets of its table.
#[derive(Drop)]
pub(crate) struct Runner<const W: u32, const LIVE: u32> {
    plan: Arc<Plan<W>>,
    /// How many commands were run.
    commands: u32,
    rib: Rib<W, LIVE>,
    replies: Vec<Reply>,
    setting: Setting,
    cutter: Cutter,
    /// The last version.
    made: Made,
    /// Whether the plan's end was asked for a version.
    ended: bool,
}

impl<const W: u32, const LIVE: u32> Model for Runner<W, LIVE> {
    ghost use Rattle.std.specs.Prelude.{◌≡◌};
    ghost use Rattle.std.specs.Arc.{arc_value};
    ghost use Rattle.fib_sync.specs.Running.{Ran, IsRunner};

    ghost Value = { Ran W };

    ghost view = { λ r. record { plan = arc_value r.plan; commands = r.commands; rib = r.rib.rows; replies = r.replies.items; made = record { number = r.made.number; count = r.made.count; kind = r.made.kind }; at_end = r.made.at_end; ended = r.ended } };

    ghost invariant = { λ r. IsRunner LIVE (record { plan = arc_value r.plan; commands = r.commands; rib = r.rib.rows; replies = r.replies.items; made = record { number = r.made.number; count = r.made.count; kind = r.made.kind }; at_end = r.made.at_end; ended = r.ended }) r.setting r.cutter × (r.rib.profile ≡ (arc_value r.plan).profile) };
}

impl<const W: u32, const LIVE: u32> Runner<W, LIVE> {
    /// No command was run: the empty table is version 0.
    pub(crate) fn new(alloc: Global, plan: Arc<Plan<W>>) -> Self
        requires { AreTargets LIVE }
        ensures plan { result.plan ≡ arc_value plan.entry }
        ensures commands { result.commands ≡ 0 }
        ensures version { (result.made.number ≡ 0) × (result.made.count ≡ 0) }
        ensures running { result.ended ≡ false }
        ensures run { IsRun LIVE result }
    {
        let rib = Rib::with_profile(alloc, plan.profile());
        Runner {
            plan,
            commands: 0,
            rib,
            replies: Vec::new(alloc),
            setting: Setting::Auto,
            cutter: Cutter::new(),
            made: Made {
                number: 0,
                count: 0,
                kind: Kind::Range,
                at_end: false,
            },
            ended: false,
        }
    }

    /// Runs the next command, and makes the version that it asks for, if it does. Where memory is
    /// wanting the command is not run.
    pub(crate) fn run(&mut self, alloc: Global) -> Result<(), OutOfMemory>
        requires inside { self.old.commands < length self.old.plan.commands }
        requires running { self.old.ended ≡ false }
        ensures run { IsRun LIVE self.new }
        ensures on { OnOk result (GoesOn self.old self.new) }
        ensures err { OnErr result (self.new ≡ self.old) }
    {
        let command = self.plan.command(self.commands);
        self.replies.reserve(1)?;
        let _most = self.rib.len();
        let reply = self.rib.apply(alloc, command)?;
        self.replies.push(reply)?;
        self.commands += 1;
        self.setting = setting_behind(self.setting, command);
        let kind = choose::<W>(Some(self.made.kind), self.setting, self.rib.len());
        let differs = is_other(kind, self.made.kind);
        let cut = self.cutter.step(accepted(&reply), command, differs);
        self.made = made_by(cut, self.made, self.commands, kind, false);
        Ok(())
    }

    /// Asks the plan's end, where all commands were run: it makes a version where changes are
    /// pending.
    pub(crate) fn finish(&mut self)
        requires all { self.old.commands ≡ length self.old.plan.commands }
        requires running { self.old.ended ≡ false }
        ensures run { IsRun LIVE self.new }
        ensures ends { Ends self.old self.new }
    {
        let _most = self.plan.len();
        let kind = choose::<W>(Some(self.made.kind), self.setting, self.rib.len());
        let cut = self.cutter.finish();
        self.made = made_by(cut, self.made, self.commands, kind, true);
        self.ended = true;
    }

    /// The plan.
    pub(crate) fn plan(&self) -> &Arc<Plan<W>>
        ensures { arc_value result.now ≡ self.now.plan }
    {
        &self.plan
    }

    /// The next command.
    pub(crate) fn command(&self) -> &Command<W>
        requires { self.now.commands < length self.now.plan.commands }
        ensures { slice_get self.now.plan.commands self.now.commands ≡ Some result.now }
    {
        self.plan.command(self.commands)
    }

    /// How many commands were run, and what every runner knows of them.
    pub(crate) fn commands(&self) -> u32
        ensures count { result ≡ self.now.commands }
        ensures run { IsRun LIVE self.now }
    {
        self.commands
    }

    /// Whether all commands were run.
    pub(crate) fn is_at_end(&self) -> bool
        ensures no { result ≡ false → self.now.commands < length self.now.plan.commands }
        ensures yes { result ≡ true → self.now.commands ≡ length self.now.plan.commands }
    {
        self.commands == self.plan.len()
    }

    /// The table.
    pub(crate) fn rib(&self) -> &Rib<W, LIVE>
        ensures rows { result.now.rows ≡ self.now.rib }
        ensures profile { result.now.profile ≡ self.now.plan.profile }
    {
        &self.rib
    }

    /// The replies to the commands run.
    pub(crate) fn replies(&self) -> &[Reply]
        ensures { result.now ≡ self.now.replies }
    {
        &self.replies
    }

    /// The last version that was made.
    pub(crate) fn made(&self) -> Made
        ensures number { result.number ≡ self.now.made.number }
        ensures count { result.count ≡ self.now.made.count }
        ensures kind { result.kind ≡ self.now.made.kind }
        ensures at_end { result.at_end ≡ self.now.at_end }
        ensures suits { Suits W result.kind }
    {
        self.made
    }

    /// Whether the plan's end was asked.
    pub(crate) fn has_ended(&self) -> bool
        ensures { result ≡ self.now.ended }
    {
        self.ended
    }
}

/// The version that is made where one is cut, else the last one.
fn made_by(cut: Cut, last: Made, count: u32, kind: Kind, at_end: bool) -> Made
    requires { last.number < 2 ^ 32 }
    ensures { result ≡ kept_by cut (record { number = last.number + 1; count = count; kind = kind; at_end = at_end }) last }
{
    match cut {
        Cut::Stay => last,
        Cut::Now => Made {
            number: last.number + 1,
            count,
            kind,
            at_end,
        },
    }
}

/// The setting behind a command.
fn setting_behind<const W: u32>(setting: Setting, command: &Command<W>) -> Setting
    requires suits { SettingSuits W setting }
    requires module { ¬ (IsWrongModule command.now) }
    ensures value { result ≡ set_by setting command.now }
    ensures suits { SettingSuits W result }
{
    match command {
        Command::Algo { setting } => *setting,
        _ => setting,
    }
}

/// Whether two modules differ.
pub(crate) fn is_other(kind: Kind, current: Kind) -> bool
    ensures { result ≡ not (is_kind kind current) }
{
    match (kind, current) {
        (Kind::Scan, Kind::Scan) => false,
        (Kind::Range, Kind::Range) => false,
        (Kind::Radix, Kind::Radix) => false,
        (Kind::Dxr, Kind::Dxr) => false,
        _ => true,
    }
}
