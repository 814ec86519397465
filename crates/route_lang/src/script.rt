//! A script, and its limits.
ghost use Rattle.std.specs.Prelude.{◌≡◌, ◌↔◌, ◌<◌, ◌≤◌, ◌-◌, ◌∷◌, ◌++◌, [], OnOk, IfOk, IsErrOf, length};
ghost use Rattle.std.specs.Arc.{arc_value};
ghost use Rattle.rib_store.specs.Limits.{plan_max};
ghost use Rattle.rib_store.specs.Plan.{IsWrongModule, plan_with};
ghost use Rattle.rib_store.specs.Profile.{IsProfile};
ghost use Rattle.route_lang.specs.Reader.Asked.{IsOfForm};
ghost use Rattle.route_lang.specs.Fits.{IsScript};
ghost use Rattle.route_lang.specs.Limits.{input_limit, lines_limit};
ghost use Rattle.route_lang.specs.Reader.Lines.{TakesLine, RefusesLine, HasAtMost, plans_behind, entries_of, shared_command, no_plans};
ghost use Rattle.route_lang.specs.Script.{input_too_large, script_of, GivesScript, is_quiet, command_line};

use crate::OutOfMemory;
use crate::asked::{Asked, Shared};
use crate::fault::{LineFault, Reason, ScriptError};
use crate::line::{Line, Lines};
use crate::read_line::read_line;
use crate::text::next_line;
use rib_store::{Command, Plan, PushError};
use std::alloc::Global;
use std::marker::Model;
use std::sync::Arc;

/// How many bytes a script may have.
pub const INPUT_MAX: usize = 67_108_864;

/// How many lines a script may have, blank lines and comments too.
pub const LINES_MAX: u32 = 1_048_576;

/// How many bytes a line may have without its end, comments too.
pub const LINE_MAX: usize = 255;

/// What a script asks for: the commands of each family, and the lines that speak of them.
#[derive(Drop)]
pub struct Script {
    inet: Arc<Plan<32>>,
    inet6: Arc<Plan<128>>,
    lines: Lines,
}

impl Model for Script {
    ghost use Rattle.std.specs.Arc.{arc_value};
    ghost use Rattle.route_lang.specs.Script.{Reading};
    ghost use Rattle.route_lang.specs.Fits.{IsScript};

    ghost Value = { Reading };

    ghost view = { λ s. record { inet = arc_value s.inet; inet6 = arc_value s.inet6; lines = s.lines; profile = (arc_value s.inet).profile } };

    ghost invariant = { λ s. IsScript (record { inet = arc_value s.inet; inet6 = arc_value s.inet6; lines = s.lines; profile = (arc_value s.inet).profile }) };
}

impl Script {
    /// The script of these plans and lines.
    pub(crate) fn of(alloc: Global, plans: Plans, lines: Vec<Line>) -> Result<Script, OutOfMemory>
        requires { IsScript (record { inet = plans.inet; inet6 = plans.inet6; lines = lines.items; profile = plans.inet.profile }) }
        ensures { IfOk result (λ script. script ≡ record { inet = plans.inet; inet6 = plans.inet6; lines = lines.items; profile = plans.inet.profile }) }
    {
        let inet = Arc::new(alloc, plans.inet)?;
        let inet6 = Arc::new(alloc, plans.inet6)?;
        Ok(Script {
            inet,
            inet6,
            lines: Lines::new(lines),
        })
    }

    /// The commands of IPv4.
    pub fn inet(&self) -> &Arc<Plan<32>>
        ensures { arc_value result.now ≡ self.now.inet }
    {
        &self.inet
    }

    /// The commands of IPv6.
    pub fn inet6(&self) -> &Arc<Plan<128>>
        ensures { arc_value result.now ≡ self.now.inet6 }
    {
        &self.inet6
    }

    /// The profile, 1 or 2, which both plans have: what becomes of a group's layout when a path
    /// leaves. A script that names none has profile 1.
    pub fn profile(&self) -> u8
        ensures value { result ≡ self.now.profile }
        ensures range { IsProfile result }
    {
        self.inet.profile()
    }

    /// The lines that ask for something of the table, at most [`LINES_MAX`]. Their numbers rise, and they ask
    /// for the commands of the plans in turn.
    pub fn lines(&self) -> &Lines
        ensures value { result.now ≡ self.now.lines }
        ensures facts { IsScript self.now }
    {
        &self.lines
    }
}

/// The plans of both families while a script is made.
#[derive(Drop)]
pub(crate) struct Plans {
    inet: Plan<32>,
    inet6: Plan<128>,
    /// Whether a line asked for something.
    begun: bool,
}

impl Plans {
    /// The empty plans of profile 1.
    pub(crate) fn new(alloc: Global) -> Plans
        ensures { result ≡ no_plans }
    {
        Plans {
            inet: Plan::new(alloc),
            inet6: Plan::new(alloc),
            begun: false,
        }
    }
}

/// The script that bytes are, or the first line that is refused and the first reason against it.
/// Bytes that are too many are told before memory is wanted.
pub fn read_script(alloc: Global, bytes: &[u8]) -> Result<Script, ScriptError>
    ensures value { GivesScript result (script_of bytes.now) }
    ensures too_large { IsErrOf result (ScriptError.Fault input_too_large) ↔ (input_limit < length bytes.now) }
{
    if bytes.len() > INPUT_MAX {
        return Err(ScriptError::Fault(LineFault {
            line: 0,
            reason: Reason::TooLarge,
        }));
    }
    let mut plans = Plans::new(alloc);
    let mut lines = Vec::new(alloc);
    let mut rest = bytes;
    let mut number = 0;
    'lines: while let Some((line, after)) = next_line(rest) {
        number += 1;
        take_line(&mut plans, &mut lines, number, line)?;
        rest = after;
    }
    Ok(Script::of(alloc, plans, lines)?)
}

/// Takes in the line of a number.
fn take_line(
    plans: &mut Plans,
    lines: &mut Vec<Line>,
    number: u32,
    line: &[u8],
) -> Result<(), ScriptError>
    requires first { 1 ≤ number }
    requires room { HasAtMost (number - 1) plans.old }
    ensures taken { OnOk result (TakesLine number line.now plans.old lines.old.items plans.new lines.new.items) }
    ensures fault { (fault : _) → IsErrOf result (ScriptError.Fault fault) → RefusesLine number line.now plans.old fault }
    ensures within { OnOk result (number ≤ lines_limit) }
    ensures room { OnOk result (HasAtMost number plans.new) }
{
    match read_line(number, line, plans.begun) {
        Ok(asked) => Ok(take_asked(plans, lines, number, asked)?),
        Err(reason) => Err(LineFault {
            line: number,
            reason,
        }
        .into()),
    }
}

/// Takes in what the line of a number asks for.
pub(crate) fn take_asked(
    plans: &mut Plans,
    lines: &mut Vec<Line>,
    number: u32,
    asked: Asked,
) -> Result<(), OutOfMemory>
    requires form { IsOfForm asked }
    requires room { (length plans.old.inet.commands < plan_max) × (length plans.old.inet6.commands < plan_max) }
    ensures plans { OnOk result (plans.new ≡ plans_behind plans.old asked) }
    ensures lines { OnOk result (lines.new.items ≡ lines.old.items ++ entries_of number plans.old asked) }
{
    match asked {
        Asked::Nothing => return Ok(()),
        Asked::Profile(number) => {
            plans.inet.set_profile(number);
            plans.inet6.set_profile(number);
        }
        Asked::Inet(command) => {
            let at = push(&mut plans.inet, command)?;
            let line = command_line(is_quiet(&command), number, Some(at), None);
            lines.push(line)?;
        }
        Asked::Inet6(command) => {
            let at = push(&mut plans.inet6, command)?;
            let line = command_line(is_quiet(&command), number, None, Some(at));
            lines.push(line)?;
        }
        Asked::Both(shared) => {
            let command = shared_command::<32>(shared);
            let inet = push(&mut plans.inet, command)?;
            let inet6 = push(&mut plans.inet6, shared_command(shared))?;
            let line = command_line(is_quiet(&command), number, Some(inet), Some(inet6));
            lines.push(line)?;
        }
        Asked::Get4 { addr, flow } => {
            let at = plans.inet.len();
            lines.push(Line::Get4 {
                line: number,
                addr,
                flow,
                at,
            })?;
        }
        Asked::Get6 { addr, flow } => {
            let at = plans.inet6.len();
            lines.push(Line::Get6 {
                line: number,
                addr,
                flow,
                at,
            })?;
        }
    }
    plans.begun = true;
    Ok(())
}

/// Puts a command behind a plan, and gives its position.
fn push<const W: u32>(plan: &mut Plan<W>, command: Command<W>) -> Result<u32, OutOfMemory>
    requires module { ¬ (IsWrongModule command) }
    requires room { length plan.old.commands < plan_max }
    ensures plan { OnOk result (plan.new ≡ plan_with plan.old command.entry) }
    ensures at { IfOk result (λ at. at ≡ length plan.old.commands) }
{
    let at = plan.len();
    match plan.push(command) {
        Ok(()) => Ok(at),
        Err(PushError::OutOfMemory) => Err(OutOfMemory),
        Err(PushError::PlanFull | PushError::WrongModule) => unreachable!(),
    }
}

/// The command of a family that both families get.
fn shared_command<const W: u32>(shared: Shared) -> Command<W>
    ensures { result ≡ shared_command shared }
{
    match shared {
        Shared::Flush => Command::Flush,
        Shared::Tick { ms } => Command::Tick { ms },
        Shared::Sync => Command::Sync,
    }
}

/// Whether a command asks nothing of the table.
fn is_quiet<const W: u32>(command: &Command<W>) -> bool
    ensures { result ≡ is_quiet command.now }
{
    match command {
        Command::Tick { .. } | Command::Sync | Command::Algo { .. } => true,
        _ => false,
    }
}

/// The line of a command that stands at these positions of the plans.
fn command_line(quiet: bool, line: u32, inet: Option<u32>, inet6: Option<u32>) -> Line
    ensures { result ≡ command_line quiet line inet inet6 }
{
    if quiet {
        Line::Quiet { line, inet, inet6 }
    } else {
        Line::Change { line, inet, inet6 }
    }
}
