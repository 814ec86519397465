//! The engine that edits are made in.
ghost use Rattle.std.specs.Prelude.{◌≡◌, ℕ, ◌*◌, List, [], length, Some, Ok, true, false, IfOk, OnOk};
ghost use Rattle.prefix_width.specs.Choice.{Suits};
ghost use Rattle.prefix_width.specs.Prefix.{Block};
ghost use Rattle.prefix_width.specs.declared.module.Kind.TheVariants.{Range};
ghost use Rattle.module_trait.specs.Edit.{AreOfDistinct, HaveAfter, undone_all};
ghost use Rattle.rib_store.specs.Table.{Table};
ghost use Rattle.engine_set.specs.Engine.{KeepsOthers, SameNodes, Stands, kind_of};
ghost use Rattle.fib_edits.specs.Named.{AreNamed, Naming, indexed, number_in};
ghost use Rattle.fib_sync.specs.Working.{IsAnew, CameBy, IsCopy, MayMove, WorksAt};
ghost use Rattle.fib_sync.specs.declared.working.Working.{Working as WorkingOf};

use crate::OutOfMemory;
use crate::runner::is_other;
use crate::updater::Updater;
use engine_set::Engine;
use fib_edits::{Touched, follow, view_of};
use module_trait::{Edit, RouteView};
use nhop_index::Indexes;
use prefix_width::Kind;
use rib_store::Rib;
use std::alloc::Global;

/// The engine that edits are made in, and the rows that it stands for.
#[derive(Drop)]
pub(crate) struct Working<const W: u32> {
    pub(crate) view: RouteView<W>,
    pub(crate) engine: Engine<W>,
}

impl<const W: u32> Working<W> {
    /// A working engine for no rows, ranges.
    pub(crate) fn empty(alloc: Global) -> Result<Working<W>, OutOfMemory>
        ensures { IfOk result (WorksAt Range []) }
    {
        let view = RouteView::new(alloc);
        let engine = Engine::build(alloc, Kind::Range, &[])?;
        Ok(Working { view, engine })
    }

    /// A working engine for the rows of a table, made anew.
    pub(crate) fn build<const K: u64, const LIVE: u32>(
        alloc: Global,
        kind: Kind,
        rib: &Rib<W, LIVE>,
        indexes: &Indexes<W, K, LIVE>,
    ) -> Result<Working<W>, OutOfMemory>
        requires suits { Suits W kind }
        requires named { AreNamed (number_in indexes.now.names) rib.now.rows }
        ensures { IfOk result (WorksAt kind (indexed (number_in indexes.now.names) rib.now.rows)) }
    {
        let view = view_of(alloc, rib, indexes)?;
        let rows = view.rows(alloc)?;
        let engine = Engine::build(alloc, kind, &rows)?;
        Ok(Working { view, engine })
    }

    /// Takes it to the next version by the edits of the touched prefixes. The engine is built anew
    /// where its kind changes or it takes no such edits. Where memory is wanting it may stand between
    /// the versions, and is of no more use.
    pub(crate) fn move_on<U: Updater<W>, const K: u64, const LIVE: u32>(
        &mut self,
        updater: &U,
        alloc: Global,
        kind: Kind,
        rib: &Rib<W, LIVE>,
        indexes: &Indexes<W, K, LIVE>,
        touched: &Touched<W>,
    ) -> Result<(), OutOfMemory>
        requires suits { Suits W kind }
        requires named { AreNamed (number_in indexes.now.names) rib.now.rows }
        requires moves { (old : Naming) × (was : Table) × MayMove old (number_in indexes.now.names) was rib.now.rows touched.now self.old }
        requires updater { U.ready updater.now }
        ensures works { OnOk result (WorksAt kind (indexed (number_in indexes.now.names) rib.now.rows) self.new) }
        ensures came { OnOk result (CameBy self.old.view (indexed (number_in indexes.now.names) rib.now.rows) self.old.engine self.new.engine) }
    {
        // What each knows of its rows.
        let _ascending = (rib.len(), self.view.len(), touched.len());
        let edits = touched.edits(alloc, rib, indexes, &self.view)?;
        follow(&mut self.view, &edits)?;
        if !self.takes(updater, alloc, kind, &edits)? {
            let rows = self.view.rows(alloc)?;
            self.engine = Engine::build(alloc, kind, &rows)?;
        }
        Ok(())
    }

    /// Whether the engine, if it is of the kind, has taken the edits of the view over.
    fn takes<U: Updater<W>>(
        &mut self,
        updater: &U,
        alloc: Global,
        kind: Kind,
        edits: &[Edit<W>],
    ) -> Result<bool, OutOfMemory>
        requires distinct { AreOfDistinct edits.now }
        requires after { HaveAfter edits.now self.old.view }
        requires before { Stands self.old.engine (undone_all edits.now self.old.view) }
        requires updater { U.ready updater.now }
        ensures view { self.new.view ≡ self.old.view }
        ensures stands { result ≡ Ok true → Stands self.new.engine self.old.view }
        ensures kind { result ≡ Ok true → kind_of self.new.engine ≡ kind }
        ensures others { result ≡ Ok true → KeepsOthers edits.now self.old.engine self.new.engine }
        ensures no { result ≡ Ok false → IsAnew edits.now (kind_of self.old.engine) kind }
    {
        if is_other(self.engine.kind(), kind) {
            return Ok(false);
        }
        updater.update(&mut self.engine, alloc, edits, &self.view)
    }

    /// A copy of the engine for an image.
    pub(crate) fn copy(&mut self, alloc: Global) -> Result<Engine<W>, OutOfMemory>
        ensures view { self.new.view ≡ self.old.view }
        ensures stands { (rows : List (Block × ℕ)) → Stands self.old.engine rows → Stands self.new.engine rows }
        ensures kind { kind_of self.new.engine ≡ kind_of self.old.engine }
        ensures settled { SameNodes self.old.engine self.new.engine }
        ensures copied { IfOk result (λ copy. (rows : List (Block × ℕ)) → Stands self.old.engine rows → IsCopy rows self.new.engine copy) }
    {
        self.engine.settle(alloc)?;
        self.engine.copy(alloc)
    }
}

/// The working engine of the next version: the old one, moved by its edits, or where there is none
/// one made anew.
pub(crate) fn moved<U: Updater<W>, const W: u32, const K: u64, const LIVE: u32>(
    updater: &U,
    alloc: Global,
    working: Option<Working<W>>,
    kind: Kind,
    rib: &Rib<W, LIVE>,
    indexes: &Indexes<W, K, LIVE>,
    touched: &Touched<W>,
) -> Result<Working<W>, OutOfMemory>
    requires suits { Suits W kind }
    requires named { AreNamed (number_in indexes.now.names) rib.now.rows }
    requires moves { (old : WorkingOf W) → working ≡ Some old → (naming : Naming) × (was : Table) × MayMove naming (number_in indexes.now.names) was rib.now.rows touched.now old }
    requires updater { U.ready updater.now }
    ensures works { IfOk result (WorksAt kind (indexed (number_in indexes.now.names) rib.now.rows)) }
    ensures came { IfOk result (λ new. (old : WorkingOf W) → working.entry ≡ Some old → CameBy old.view (indexed (number_in indexes.now.names) rib.now.rows) old.engine new.engine) }
{
    match working {
        Some(mut working) => {
            working.move_on(updater, alloc, kind, rib, indexes, touched)?;
            Ok(working)
        }
        None => Working::build(alloc, kind, rib, indexes),
    }
}
