//! What the lines of a script come to, in numbers.
ghost use Rattle.std.specs.Prelude.{◌≡◌, ◌++◌, ◌+◌, ◌<◌, ◌≤◌, cond, IfOk, OnOk, drop, length};
ghost use Rattle.plan_cut.specs.PlanCourse.{is_accepted};
ghost use Rattle.route_lang.specs.Limits.{lines_limit};
ghost use Rattle.replay_run.specs.Replay.{IsUnderWay};
ghost use Rattle.replay_run.specs.Survey.{changes_text, generated_text, gets_text, is_refused, is_reply, survey_text, title_text};
ghost use Rattle.replay_run.specs.Surveying.{IsTally};

use crate::OutOfMemory;
use crate::output::push_number;
use crate::serial_replay::Replay;
use module_trait::Steps;
use plan_cut::accepted;
use rib_store::Reply;
use route_lang::{Line, Script, generate};
use std::alloc::Global;
use std::marker::Brand;
use std::sync::ledger::{Blank, Ledger};

/// How many changes were accepted and how many refused, how many gets there were, and how many of
/// these have a nexthop.
#[derive(Clone, Copy, Debug, PartialEq, Eq)]
pub(crate) struct Tally {
    accepted: u32,
    refused: u32,
    gets: u32,
    answered: u32,
}

/// What the mode `gen` writes: a script of so many lines, 1 to 1,048,576, is generated from a seed
/// and replayed on one thread. The text tells the seed and the number of lines, the accepted changes
/// and the refused ones, the gets and those that have a nexthop, and each family's last version.
pub fn gen_text(alloc: Global, seed: u32, count: u32) -> Result<Vec<u8>, OutOfMemory>
    requires { (1 ≤ count) × (count ≤ lines_limit) }
    ensures { IfOk result (λ text. text.items ≡ generated_text seed count) }
{
    let script = generate(alloc, seed, count)?;
    let mut out = Vec::new(alloc);
    write_title(seed, count, &mut out)?;
    write_survey::<Brand>(alloc, &script, Blank::new(1), &mut out)?;
    Ok(out)
}

/// Appends the line that tells what was generated.
fn write_title(seed: u32, count: u32, out: &mut Vec<u8>) -> Result<(), OutOfMemory>
    ensures { OnOk result (out.new.items ≡ out.old.items ++ title_text seed count) }
{
    out.extend_from_slice(b"gen seed ")?;
    push_number(u64::from(seed), out)?;
    out.extend_from_slice(b" count ")?;
    push_number(u64::from(count), out)?;
    out.extend_from_slice(b"\n")
}

/// Appends what is told of a script, where the reads of lookups are counted in the ledger that the
/// blank is for.
fn write_survey<L: Ledger>(
    alloc: Global,
    script: &Script,
    blank: Blank,
    out: &mut Vec<u8>,
) -> Result<(), OutOfMemory>
    requires name { blank.name ≡ L.name }
    requires parts { blank.parts ≡ L.parts }
    requires some { 0 < blank.parts }
    ensures { OnOk result (out.new.items ≡ out.old.items ++ survey_text script.now) }
{
    let mut replay = Replay::begin(alloc, script, Steps::<L>::new(alloc, blank)?)?;
    let mut tally = Tally::none();
    for i in 0..script.lines().len() {
        replay.count_line(alloc, script, i, &mut tally)?;
    }
    tally.write_changes(out)?;
    tally.write_gets(out)?;
    replay.write_last(alloc, out)
}

impl<L: Ledger> Replay<L> {
    /// Takes the line of a number, counted from 0, and counts it as what it comes to.
    fn count_line(
        &mut self,
        alloc: Global,
        script: &Script,
        i: usize,
        tally: &mut Tally,
    ) -> Result<(), OutOfMemory>
        requires line { i < length script.now.lines }
        requires before { IsUnderWay script.now (drop i script.now.lines) self.old }
        requires tally { IsTally script.now i tally.old }
        ensures after { OnOk result (IsUnderWay script.now (drop (i + 1) script.now.lines) self.new) }
        ensures tally { OnOk result (IsTally script.now (i + 1) tally.new) }
    {
        match *script.lines().get(i) {
            Line::Change {
                line: _,
                inet,
                inet6,
            } => {
                let reply = self.run(alloc, inet, inet6)?;
                tally.add_reply(reply);
            }
            Line::Quiet {
                line: _,
                inet,
                inet6,
            } => {
                self.run(alloc, inet, inet6)?;
            }
            Line::Get4 {
                line: _,
                addr,
                flow,
                at: _,
            } => {
                let answered = self.inet.count_get(&addr, flow, &mut self.steps)?;
                tally.add_get(answered);
            }
            Line::Get6 {
                line: _,
                addr,
                flow,
                at: _,
            } => {
                let answered = self.inet6.count_get(&addr, flow, &mut self.steps)?;
                tally.add_get(answered);
            }
        }
        Ok(())
    }
}

impl Tally {
    /// Of no line.
    fn none() -> Tally
        ensures { result ≡ record { accepted = 0; refused = 0; gets = 0; answered = 0 } }
    {
        Tally {
            accepted: 0,
            refused: 0,
            gets: 0,
            answered: 0,
        }
    }

    /// Counts the reply to a line that asks for a change.
    fn add_reply(&mut self, reply: Option<Reply>)
        requires { (self.old.accepted < lines_limit) × (self.old.refused < lines_limit) }
        ensures { self.new ≡ record self.old { accepted = self.old.accepted + cond (is_reply is_accepted reply) 1 0; refused = self.old.refused + cond (is_reply is_refused reply) 1 0 } }
    {
        let Some(reply) = reply else {
            return;
        };
        if accepted(&reply) {
            self.accepted += 1;
        }
        if is_refused(&reply) {
            self.refused += 1;
        }
    }

    /// Counts a get, and whether it has a nexthop.
    fn add_get(&mut self, answered: bool)
        requires { (self.old.gets < lines_limit) × (self.old.answered < lines_limit) }
        ensures { self.new ≡ record self.old { gets = self.old.gets + 1; answered = self.old.answered + cond answered 1 0 } }
    {
        self.gets += 1;
        if answered {
            self.answered += 1;
        }
    }

    /// Appends the line that tells of changes.
    fn write_changes(&self, out: &mut Vec<u8>) -> Result<(), OutOfMemory>
        ensures { OnOk result (out.new.items ≡ out.old.items ++ changes_text self.now.accepted self.now.refused) }
    {
        out.extend_from_slice(b"changes ")?;
        push_number(u64::from(self.accepted), out)?;
        out.extend_from_slice(b" refused ")?;
        push_number(u64::from(self.refused), out)?;
        out.extend_from_slice(b"\n")
    }

    /// Appends the line that tells of gets.
    fn write_gets(&self, out: &mut Vec<u8>) -> Result<(), OutOfMemory>
        ensures { OnOk result (out.new.items ≡ out.old.items ++ gets_text self.now.gets self.now.answered) }
    {
        out.extend_from_slice(b"gets ")?;
        push_number(u64::from(self.gets), out)?;
        out.extend_from_slice(b" answered ")?;
        push_number(u64::from(self.answered), out)?;
        out.extend_from_slice(b"\n")
    }
}

fn is_refused(reply: &Reply) -> bool
    ensures { result ≡ is_refused reply.now }
{
    matches!(reply, Reply::Refused(_))
}
