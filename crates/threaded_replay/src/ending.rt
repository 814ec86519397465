//! What a replay comes to.
ghost use Rattle.std.specs.Prelude.{◌≡◌, ◌≤◌, ◌++◌, All, IfOk, OnOk, length, map};
ghost use Rattle.std.specs.List.{flat_map};
ghost use Rattle.engine_set.specs.Engine.{kind_of};
ghost use Rattle.replay_run.specs.Line.{fib_text, packets_text};
ghost use Rattle.fib_pass.specs.Totals.{end_of, packets_hit, packets_of};
ghost use Rattle.plan_cut.specs.PlanCourse.{last_version};
ghost use Rattle.replay_run.specs.Output.{inet_of, inet6_of, output, packets_in, paired};
ghost use Rattle.replay_run.specs.Limits.{targets_max};
ghost use Rattle.threaded_replay.specs.Merging.{version_in};
ghost use Rattle.threaded_replay.specs.Printing.{EndsSo, IsPrintable};

use crate::print::{write_all_packets, write_last, write_lines};
use crate::{Fib, Fibs, OutOfMemory, Ran};
use fib_pass::{FibCloseError, FibTotals, Totals};
use fib_sync::Control;
use replay_run::{BANKS, TARGETS_MAX};
use route_lang::Script;
use std::alloc::Global;

/// What a family comes to: what its passes did, and its control.
#[derive(Drop)]
struct Ended<const W: u32> {
    totals: Totals<W>,
    control: Control<W, BANKS, TARGETS_MAX>,
}

/// Closes the fib of a family, none of whose passes is missing.
fn close<const W: u32>(alloc: Global, fib: Fib<W>) -> Result<Ended<W>, OutOfMemory>
    requires tied { All (λ p. p.seat.table ≡ fib.publisher.table) fib.passes.items }
    requires enough { fib.publisher.own.readers ≤ length fib.passes.items }
    ensures control { IfOk result (λ e. e.control ≡ fib.entry.control) }
    ensures version { IfOk result (λ e. e.totals.version ≡ fib.entry.publisher.own.version) }
    ensures passes { IfOk result (λ e. e.totals.passes ≡ map end_of fib.entry.passes.items) }
    ensures packets { IfOk result (λ e. e.totals.packets ≡ packets_hit fib.entry.publisher.key fib.entry.passes.items) }
{
    let Fib {
        control,
        publisher,
        passes,
    } = fib;
    match publisher.close(alloc, passes) {
        Ok(totals) => Ok(Ended { totals, control }),
        Err(FibCloseError::Missing { .. }) => unreachable!(),
        Err(FibCloseError::OutOfMemory { .. }) => Err(OutOfMemory),
    }
}

/// Appends what comes behind the lines: the packets of both families, and their last versions.
fn write_end(
    alloc: Global,
    inet: &Ended<32>,
    inet6: &Ended<128>,
    out: &mut Vec<u8>,
) -> Result<(), OutOfMemory>
    ensures { OnOk result (out.new.items ≡ out.old.items ++ (flat_map (λ p. packets_text 32 (p.nexthop, p.count)) inet.now.totals.packets
        ++ (flat_map (λ p. packets_text 128 (p.nexthop, p.count)) inet6.now.totals.packets
        ++ (fib_text 32 inet.now.control.image.version inet.now.control.image.routes (kind_of inet.now.control.image.engine)
        ++ fib_text 128 inet6.now.control.image.version inet6.now.control.image.routes (kind_of inet6.now.control.image.engine))))) }
{
    write_all_packets(alloc, &inet.totals, out)?;
    write_all_packets(alloc, &inet6.totals, out)?;
    write_last(&inet.control, out)?;
    write_last(&inet6.control, out)
}

/// The output of a script whose gets were answered, and what the passes of both families did.
pub(crate) fn end(
    alloc: Global,
    script: &Script,
    ran: Ran,
) -> Result<(Vec<u8>, FibTotals), OutOfMemory>
    requires ran { IsPrintable script.now ran }
    requires inet { EndsSo script.now (version_in ran.gots.items) (inet_of script.now) ran.fibs.inet }
    requires inet6 { EndsSo script.now (version_in ran.gots.items) (inet6_of script.now) ran.fibs.inet6 }
    ensures text { IfOk result (λ r. r.0.items ≡ output targets_max script.now (version_in ran.gots.items)) }
    ensures passes { IfOk result (λ r. r.1.inet.passes ≡ map end_of ran.fibs.inet.passes.items) }
    ensures passes6 { IfOk result (λ r. r.1.inet6.passes ≡ map end_of ran.fibs.inet6.passes.items) }
    ensures packets { IfOk result (λ r. r.1.inet.packets ≡ packets_of (packets_in targets_max (inet_of script.now) (paired script.now.lines (version_in ran.gots.items)))) }
    ensures packets6 { IfOk result (λ r. r.1.inet6.packets ≡ packets_of (packets_in targets_max (inet6_of script.now) (paired script.now.lines (version_in ran.gots.items)))) }
    ensures newest { IfOk result (λ r. r.1.inet.version ≡ (last_version targets_max script.now.inet).number) }
    ensures newest6 { IfOk result (λ r. r.1.inet6.version ≡ (last_version targets_max script.now.inet6).number) }
{
    let mut out = Vec::new(alloc);
    write_lines(alloc, script, &ran, &mut out)?;
    let Ran { gots: _, fibs } = ran;
    let Fibs { inet, inet6 } = fibs;
    let inet = close(alloc, inet)?;
    let inet6 = close(alloc, inet6)?;
    write_end(alloc, &inet, &inet6, &mut out)?;
    Ok((
        out,
        FibTotals {
            inet: inet.totals,
            inet6: inet6.totals,
        },
    ))
}
