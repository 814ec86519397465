//! Tables whose versions give indexes to numbers again.
ghost use Rattle.std.specs.Prelude.{◌≡◌, ◌+◌, ◌<◌, ◌≤◌, false, length, true, All, IfErr, IfOk, IfSome, OnErr};
ghost use Rattle.prefix_width.specs.Limits.{AreTargets};
ghost use Rattle.epoch_core.specs.Step.{has_index};
ghost use Rattle.epoch_core.specs.Turns.{turns};
ghost use Rattle.bench_kit.specs.Fault.{IsRunFault};
ghost use Rattle.epoch_bench.specs.declared.writer.TheConstants.{VERSION_MAX};

use crate::OutOfMemory;
use bench_kit::Fault;
use epoch_core::{ControlSeat, Lawful, ReaderSeat, start};
use std::alloc::Global;
use std::sync::Arc;

/// After how many versions an index is given again: as many as there are banks, since no version
/// that a reader may have in hand is to name it.
const TURNS: u64 = 8;

/// A number that is lawful for the version that it is. Each version from 1 on names one index of 1
/// to [`TURNS`], in turn, for one number of 1 to 3, in turn.
#[derive(Drop)]
pub(crate) struct Turn(u64);

impl Lawful<()> for Turn {
    ghost use Rattle.std.specs.Prelude.{◌≡◌};
    ghost use Rattle.epoch_core.specs.Turns.{turns};
    ghost use Rattle.epoch_bench.specs.declared.turn.TheConstants.{TURNS};

    ghost is_lawful = { λ _ version turn. version ≡ turn.0 };

    ghost names = { λ _ version. turns TURNS TURNS version };
}

/// The seat that places turns.
pub(crate) type TurnControl<const LIVE: u32> = ControlSeat<(), Turn, 8, LIVE>;

/// A seat that reads turns.
pub(crate) type TurnReader<const LIVE: u32> = ReaderSeat<(), Turn, 8, LIVE>;

/// The index that the version names.
#[tactic(auto, using(crate::proofs::NameLemmas::turn_is_named))]
pub(crate) fn index_of(version: u64) -> Option<u16>
    ensures { IfSome result (λ index. has_index index (turns TURNS TURNS version) ≡ true) }
{
    if version > 0 {
        Some((1 + version % TURNS) as u16)
    } else {
        None
    }
}

/// The index that a version from 1 on names, with its number.
#[tactic(auto, using(crate::proofs::NameLemmas::turn_is_one))]
fn names_of(version: u64) -> [(u16, u32); 1]
    requires { 0 < version }
    ensures { result ≡ turns TURNS TURNS version }
{
    [((1 + version % TURNS) as u16, (1 + version % 3) as u32)]
}

/// A table of 1 to 64 readers at version 0.
#[tactic(auto, using(crate::proofs::NameLemmas::turns_fit))]
pub(crate) fn start_turns<const LIVE: u32>(
    alloc: Global,
    readers: u8,
) -> Result<(TurnControl<LIVE>, Vec<TurnReader<LIVE>>), Fault>
    requires targets { AreTargets LIVE }
    requires readers { (1 ≤ readers) × (readers ≤ 64) }
    ensures version { IfOk result (λ t. t.0.own.version ≡ 0) }
    ensures readers { IfOk result (λ t. (t.0.own.readers ≡ readers) × (length t.1.items ≡ readers)) }
    ensures table { IfOk result (λ t. All (λ s. s.table ≡ t.0.table) t.1.items) }
    ensures new { IfOk result (λ t. All (λ s. length s.own.hits ≡ 0) t.1.items) }
    ensures fault { IfErr result IsRunFault }
{
    let first = Arc::new(alloc, Turn(0))?;
    match start(alloc, (), readers, 3, &first) {
        Ok(seats) => Ok(seats),
        Err(_) => Err(Fault::OutOfMemory),
    }
}

/// Places the next version, which gives an index to another number, and answers whether no reader
/// held it up.
#[tactic(auto, using(crate::proofs::NameLemmas::turn_is_fresh))]
pub(crate) fn place_turn<const LIVE: u32>(
    alloc: Global,
    control: &mut TurnControl<LIVE>,
) -> Result<bool, OutOfMemory>
    requires room { control.old.own.version < VERSION_MAX }
    ensures placed { IfOk result (λ placed. placed ≡ true → control.new.own.version ≡ control.old.own.version + 1) }
    ensures held { IfOk result (λ placed. placed ≡ false → control.new.own.version ≡ control.old.own.version) }
    ensures seat { (control.new.table ≡ control.old.table) × (control.new.own.readers ≡ control.old.own.readers) }
    ensures same { OnErr result (control.new ≡ control.old) }
{
    let next = control.version() + 1;
    let image = Arc::new(alloc, Turn(next))?;
    let fresh = names_of(next);
    let copies = control.prepare(alloc, &image, &fresh)?;
    match control.try_place(copies) {
        Ok(_) => Ok(true),
        Err(_) => Ok(false),
    }
}
