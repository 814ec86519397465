//! Commands are run up to the next version.
ghost use Rattle.std.specs.Prelude.{◌≡◌, ℕ, ◌+◌, ◌<◌, ◌≤◌, false, true, length, OnOk, OnErr};
ghost use Rattle.fib_sync.specs.Running.{GoesOn};
ghost use Rattle.fib_sync.specs.Standing.{IsAhead, IsReady};

use crate::OutOfMemory;
use crate::runner::Runner;
use fib_edits::Touched;
use std::alloc::Global;

/// Runs commands until they have made a version after the given one, or the plan has ended.
pub(crate) fn run_to_version<const W: u32, const LIVE: u32>(
    alloc: Global,
    given: u64,
    runner: &mut Runner<W, LIVE>,
    touched: &mut Touched<W>,
) -> Result<(), OutOfMemory>
    requires ahead { IsAhead LIVE given runner.old touched.old }
    ensures ahead { IsAhead LIVE given runner.new touched.new }
    ensures ready { OnOk result (IsReady given runner.new) }
    ensures plan { runner.new.plan ≡ runner.old.plan }
    ensures further { runner.old.commands ≤ runner.new.commands }
    ensures stays { given < runner.old.made.number → runner.new ≡ runner.old }
{
    'running: while is_calm(given, runner) && !runner.is_at_end() {
        run_one(alloc, given, runner, touched)?;
    }
    if is_calm(given, runner) {
        runner.finish();
    }
    Ok(())
}

/// Whether no version is made after the given one, and the plan's end was not asked.
fn is_calm<const W: u32, const LIVE: u32>(given: u64, runner: &Runner<W, LIVE>) -> bool
    ensures yes { result ≡ true → (runner.now.made.number ≡ given) × (runner.now.ended ≡ false) }
    ensures no { result ≡ false → given ≤ runner.now.made.number → IsReady given runner.now }
{
    if runner.made().number != given {
        return false;
    }
    !runner.has_ended()
}

/// Runs one command, and keeps the prefixes that it touches.
fn run_one<const W: u32, const LIVE: u32>(
    alloc: Global,
    given: u64,
    runner: &mut Runner<W, LIVE>,
    touched: &mut Touched<W>,
) -> Result<(), OutOfMemory>
    requires ahead { IsAhead LIVE given runner.old touched.old }
    requires calm { runner.old.made.number ≡ given }
    requires running { runner.old.ended ≡ false }
    requires inside { runner.old.commands < length runner.old.plan.commands }
    ensures ahead { IsAhead LIVE given runner.new touched.new }
    ensures on { OnOk result (GoesOn runner.old runner.new) }
    ensures err { OnErr result (runner.new ≡ runner.old) }
{
    touched.add_command(runner.command(), runner.rib())?;
    runner.run(alloc)
}
