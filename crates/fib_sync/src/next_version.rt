//! The image of the version that is due.
ghost use Rattle.std.specs.Prelude.{◌≡◌, ℕ, ◌+◌, ◌<◌, [], Some, true, is_some, IfOk};
ghost use Rattle.prefix_width.specs.declared.module.Kind.TheVariants.{Range};
ghost use Rattle.engine_set.specs.Engine.{Stands, kind_of};
ghost use Rattle.fib_sync.specs.Control.{CameByEdits, IsImage, rows_at};
ghost use Rattle.fib_sync.specs.Running.{IsRun};
ghost use Rattle.fib_sync.specs.Standing.{IsAt, IsNextVersion};
ghost use Rattle.fib_sync.specs.VersionNames.{naming_at};
ghost use Rattle.fib_sync.specs.declared.working.Working.{Working as WorkingOf};
ghost use Rattle.std.specs.Arc.{arc_value};

use crate::OutOfMemory;
use crate::fresh::fresh_pairs;
use crate::index_pair::entries_after;
use crate::making::make_lawful;
use crate::numbering::Numbering;
use crate::runner::Runner;
use crate::updater::Updater;
use crate::working::{Working, moved};
use engine_set::{Engine, Entries, Image};
use fib_edits::Touched;
use nhop_index::Indexes;
use std::alloc::Global;
use std::sync::Arc;

/// A version that is made and not yet given.
#[derive(Drop)]
pub(crate) struct NextVersion<const W: u32> {
    pub(crate) working: Working<W>,
    pub(crate) image: Arc<Image<W>>,
    /// The same image.
    pub(crate) kept: Arc<Image<W>>,
}

/// Makes the version that is due after the last image. Where memory is wanting, the working engine
/// is given up.
pub(crate) fn make_next<U: Updater<W>, const W: u32, const K: u64, const LIVE: u32>(
    updater: &U,
    alloc: Global,
    working: Option<Working<W>>,
    runner: &Runner<W, LIVE>,
    touched: &Touched<W>,
    numbering: &Numbering<W, K, LIVE>,
    last: &Image<W>,
) -> Result<NextVersion<W>, OutOfMemory>
    requires at { IsAt runner.now touched.now numbering.now working last.now }
    requires due { last.now.version < runner.now.made.number }
    requires named { is_some numbering.now.next ≡ true }
    requires updater { U.ready updater.now }
    ensures next { IfOk result (IsNextVersion K LIVE runner.now last.now) }
    ensures came { IfOk result (λ n. (old : WorkingOf W) → working.entry ≡ Some old → CameByEdits K LIVE runner.now.plan last.now (arc_value n.image)) }
{
    let Some(indexes) = &numbering.next else {
        unreachable!()
    };
    let kind = runner.made().kind;
    let mut working = moved(
        updater,
        alloc,
        working,
        kind,
        runner.rib(),
        indexes,
        touched,
    )?;
    let engine = working.copy(alloc)?;
    let image = next_image(alloc, engine, runner, &numbering.now, indexes, last)?;
    let image = Arc::new(alloc, image)?;
    let kept = Arc::try_clone(&image)?;
    Ok(NextVersion {
        working,
        image,
        kept,
    })
}

/// The image of the version after the last image's, with this engine.
fn next_image<const W: u32, const K: u64, const LIVE: u32>(
    alloc: Global,
    engine: Engine<W>,
    runner: &Runner<W, LIVE>,
    before: &Indexes<W, K, LIVE>,
    indexes: &Indexes<W, K, LIVE>,
    last: &Image<W>,
) -> Result<Image<W>, OutOfMemory>
    requires number { runner.now.made.number ≡ last.now.version + 1 }
    requires count { runner.now.made.count ≡ runner.now.commands }
    requires before { before.now.names ≡ naming_at K LIVE runner.now.plan last.now.version }
    requires indexes { indexes.now.names ≡ naming_at K LIVE runner.now.plan (last.now.version + 1) }
    requires last { IsImage K LIVE runner.now.plan last.now.version last.now }
    requires stands { Stands engine (rows_at K LIVE runner.now.plan (last.now.version + 1)) }
    requires kind { kind_of engine ≡ runner.now.made.kind }
    ensures image { IfOk result (IsImage K LIVE runner.now.plan (last.now.version + 1)) }
    ensures engine { IfOk result (λ image. image.engine ≡ engine.entry) }
    ensures count { IfOk result (λ image. image.count ≡ runner.now.commands) }
{
    // What is known of the commands run, and of the number of banks.
    let _known = (runner.commands(), indexes.len());
    let entries = entries_after(alloc, before, indexes, last.entries())?;
    let fresh = fresh_pairs(alloc, runner.plan(), before, indexes)?;
    let made = runner.made();
    let routes = runner.rib().len();
    make_lawful(
        alloc,
        made.number,
        made.count,
        routes,
        engine,
        entries,
        fresh,
    )
}

/// The image of version 0, which has the empty table, with this engine.
pub(crate) fn first_image<const W: u32, const K: u64, const LIVE: u32>(
    alloc: Global,
    engine: Engine<W>,
    runner: &Runner<W, LIVE>,
) -> Result<Image<W>, OutOfMemory>
    requires stands { Stands engine [] }
    requires kind { kind_of engine ≡ Range }
    ensures image { IfOk result (IsImage K LIVE runner.now.plan 0) }
    ensures engine { IfOk result (λ image. image.engine ≡ engine.entry) }
    ensures count { IfOk result (λ image. image.count ≡ 0) }
{
    let entries = Entries::new(alloc, Vec::new(alloc))?;
    make_lawful(alloc, 0, 0, 0, engine, entries, Vec::new(alloc))
}
