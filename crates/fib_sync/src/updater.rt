//! How a working engine takes edits: in one thread, or in pieces.
ghost use denote.Param.Send.{IsSync};
ghost use Rattle.std.specs.Prelude.{◌≡◌, ◌≢◌, Ok, true, IfOk};
ghost use Rattle.module_trait.specs.Edit.{AreOfDistinct, HaveAfter, undone_all};
ghost use Rattle.engine_set.specs.Engine.{IsTaken, KeepsOthers, Stands, kind_of};

use crate::OutOfMemory;
use engine_set::Engine;
use module_trait::{Edit, RouteView};
use std::alloc::Global;
use std::thread::Threads;

/// How a working engine takes edits over.
pub(crate) trait Updater<const W: u32> {
    /// What its use needs.
    ghost ready: { Self → Type 0 };

    /// Has the engine take edits of distinct prefixes over, as [`Engine::update`] does.
    fn update(
        &self,
        engine: &mut Engine<W>,
        alloc: Global,
        edits: &[Edit<W>],
        view: &RouteView<W>,
    ) -> Result<bool, OutOfMemory>
        requires distinct { AreOfDistinct edits.now }
        requires after { HaveAfter edits.now view.now }
        requires before { Stands engine.old (undone_all edits.now view.now) }
        requires ready { ready self.now }
        ensures taken { IfOk result (λ taken. IsTaken W (kind_of engine.old) edits.now (undone_all edits.now view.now) view.now taken) }
        ensures kind { kind_of engine.new ≡ kind_of engine.old }
        ensures done { result ≡ Ok true → Stands engine.new view.now }
        ensures others { result ≡ Ok true → KeepsOthers edits.now engine.old engine.new }
        ensures not_done { result ≢ Ok true → engine.new ≡ engine.old };
}

/// In the caller's thread.
#[derive(Drop)]
pub(crate) struct SerialUpdater;

/// With the parts of a module's work in threads of their own.
#[derive(Drop)]
pub(crate) struct ParallelUpdater<'a, R> {
    pub(crate) rt: &'a R,
}

impl<const W: u32> Updater<W> for SerialUpdater {
    ghost ready = { λ _. Unit {0} };

    fn update(
        &self,
        engine: &mut Engine<W>,
        alloc: Global,
        edits: &[Edit<W>],
        view: &RouteView<W>,
    ) -> Result<bool, OutOfMemory> {
        engine.update(alloc, edits, view)
    }
}

impl<R: Threads + Sync, const W: u32> Updater<W> for ParallelUpdater<'_, R> {
    ghost ready = { λ _. IsSync R.row };

    fn update(
        &self,
        engine: &mut Engine<W>,
        alloc: Global,
        edits: &[Edit<W>],
        view: &RouteView<W>,
    ) -> Result<bool, OutOfMemory> {
        engine.update_par(self.rt, alloc, edits, view)
    }
}
