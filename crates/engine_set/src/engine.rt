//! The modules as one.
ghost use Rattle.std.specs.Prelude.{◌≡◌, ◌≢◌, ◌↔◌, ℕ, ◌+◌, ◌*◌, ◌≤◌, List, length, Ok, true, IfOk, OnOk};
ghost use Rattle.prefix_width.specs.Choice.{Suits};
ghost use Rattle.prefix_width.specs.Prefix.{Block};
ghost use Rattle.prefix_width.specs.Longest.{longest};
ghost use Rattle.module_trait.specs.Edit.{undone_all, HaveAfter, AreOfDistinct};
ghost use Rattle.module_trait.specs.Rows.{AreRows, index_of};
ghost use Rattle.engine_set.specs.Engine.{IsBound, IsTaken, KeepsOthers, SameNodes, Stands, kind_of, made_of, unsettled_of};

use crate::OutOfMemory;
use crate::inet::InetDxr;
use module_trait::{Edit, Module, RouteView, ScanTable, Steps, Verdict};
use prefix_width::{Addr, Kind, Prefix};
use radix_lockless::RadixTable;
use range_search::RangeTable;
use std::alloc::Global;
use std::sync::ledger::Ledger;
use std::thread::Threads;

/// One of the lookup modules.
#[derive(Drop)]
pub enum Engine<const W: u32> {
    /// The rows themselves.
    Scan(ScanTable<W>),
    /// Sorted ranges.
    Range(RangeTable<W>),
    /// A path-compressed trie.
    Radix(RadixTable<W>),
    /// Direct cells and shared chunks, at 32 bits alone.
    Dxr(InetDxr<W>),
}

/// Whether the answer is Done.
fn is_done(verdict: Verdict) -> bool
    ensures { (result ≡ true) ↔ (verdict ≡ Verdict.Done) }
{
    match verdict {
        Verdict::Done => true,
        _ => false,
    }
}

impl<const W: u32> Engine<W> {
    /// An engine of this kind for these rows. The kind suits the width, since DXR is for 32 bits
    /// alone, and the rows ascend by prefix.
    pub fn build(
        alloc: Global,
        kind: Kind,
        rows: &[(Prefix<W>, u16)],
    ) -> Result<Engine<W>, OutOfMemory>
        requires suits { Suits W kind }
        requires rows { AreRows rows.now }
        ensures stands { IfOk result (λ engine. Stands engine rows.now) }
        ensures kind { IfOk result (λ engine. kind_of engine ≡ kind) }
    {
        match kind {
            Kind::Scan => Ok(Engine::Scan(ScanTable::build(alloc, rows)?)),
            Kind::Range => Ok(Engine::Range(RangeTable::build(alloc, rows)?)),
            Kind::Radix => Ok(Engine::Radix(RadixTable::build(alloc, rows)?)),
            Kind::Dxr => Ok(Engine::Dxr(InetDxr::build(alloc, rows)?)),
        }
    }

    /// The index of the longest row that contains the address, `None` where no row does.
    pub fn find<L: Ledger>(&self, addr: &Addr<W>, steps: &mut Steps<L>) -> Option<u16>
        ensures answer { (rows : List (Block × ℕ)) → Stands self.now rows → result ≡ index_of (longest W rows addr.now) }
        ensures cost { (rows : List (Block × ℕ)) (n : ℕ) → Stands self.now rows → IsBound W (kind_of self.now) rows n → steps.new ≤ steps.old + n }
    {
        match self {
            Engine::Scan(table) => table.find(addr, steps),
            Engine::Range(table) => table.find(addr, steps),
            Engine::Radix(table) => table.find(addr, steps),
            Engine::Dxr(table) => table.find(addr, steps),
        }
    }

    /// Which of the modules it is.
    pub fn kind(&self) -> Kind
        ensures { result ≡ kind_of self.now }
    {
        match self {
            Engine::Scan(_) => Kind::Scan,
            Engine::Range(_) => Kind::Range,
            Engine::Radix(_) => Kind::Radix,
            Engine::Dxr(_) => Kind::Dxr,
        }
    }

    /// Takes edits of distinct prefixes over, after which the rows are the view's. The answer is
    /// true exactly where the module's answer is Done. Undone in the view, the edits leave the rows
    /// that the engine stands for.
    pub fn update(
        &mut self,
        alloc: Global,
        edits: &[Edit<W>],
        view: &RouteView<W>,
    ) -> Result<bool, OutOfMemory>
        requires distinct { AreOfDistinct edits.now }
        requires after { HaveAfter edits.now view.now }
        requires before { Stands self.old (undone_all edits.now view.now) }
        ensures taken { IfOk result (λ taken. IsTaken W (kind_of self.old) edits.now (undone_all edits.now view.now) view.now taken) }
        ensures kind { kind_of self.new ≡ kind_of self.old }
        ensures done { result ≡ Ok true → Stands self.new view.now }
        ensures others { result ≡ Ok true → KeepsOthers edits.now self.old self.new }
        ensures not_done { result ≢ Ok true → self.new ≡ self.old }
    {
        match self {
            Engine::Scan(table) => Ok(is_done(table.change_batch(alloc, edits, view)?)),
            Engine::Range(table) => Ok(is_done(table.change_batch(alloc, edits, view)?)),
            Engine::Radix(table) => Ok(is_done(table.change_batch(alloc, edits, view)?)),
            Engine::Dxr(table) => Ok(is_done(table.change_batch(alloc, edits, view)?)),
        }
    }

    /// As [`Engine::update`], and with the same answer. The chunks of DXR are made in pieces, each of
    /// which may be made in a thread of its own. The other modules' work has no pieces.
    pub fn update_par<R: Threads + Sync>(
        &mut self,
        rt: &R,
        alloc: Global,
        edits: &[Edit<W>],
        view: &RouteView<W>,
    ) -> Result<bool, OutOfMemory>
        requires distinct { AreOfDistinct edits.now }
        requires after { HaveAfter edits.now view.now }
        requires before { Stands self.old (undone_all edits.now view.now) }
        ensures taken { IfOk result (λ taken. IsTaken W (kind_of self.old) edits.now (undone_all edits.now view.now) view.now taken) }
        ensures kind { kind_of self.new ≡ kind_of self.old }
        ensures done { result ≡ Ok true → Stands self.new view.now }
        ensures others { result ≡ Ok true → KeepsOthers edits.now self.old self.new }
        ensures not_done { result ≢ Ok true → self.new ≡ self.old }
    {
        match self {
            Engine::Dxr(table) => Ok(is_done(table.change_batch_par(rt, alloc, edits, view)?)),
            _ => self.update(alloc, edits, view),
        }
    }

    /// Readies it for copies: no page of its nodes is unsettled then.
    pub fn settle(&mut self, alloc: Global) -> Result<(), OutOfMemory>
        ensures stands { (rows : List (Block × ℕ)) → Stands self.old rows → Stands self.new rows }
        ensures kind { kind_of self.new ≡ kind_of self.old }
        ensures same { SameNodes self.old self.new }
        ensures settled { OnOk result (unsettled_of self.new ≡ 0) }
    {
        match self {
            Engine::Scan(table) => table.settle(alloc),
            Engine::Range(table) => table.settle(alloc),
            Engine::Radix(table) => table.settle(alloc),
            Engine::Dxr(table) => table.settle(alloc),
        }
    }

    /// An engine of the same kind that stands for the same rows. It shares each page of nodes that
    /// was not written to since the engine was settled.
    pub fn copy(&self, alloc: Global) -> Result<Engine<W>, OutOfMemory>
        ensures stands { IfOk result (λ copy. (rows : List (Block × ℕ)) → Stands self.now rows → Stands copy rows) }
        ensures kind { IfOk result (λ copy. kind_of copy ≡ kind_of self.now) }
        ensures same { IfOk result (λ copy. SameNodes self.now copy) }
        ensures made { IfOk result (λ copy. made_of copy ≤ unsettled_of self.now) }
    {
        match self {
            Engine::Scan(table) => Ok(Engine::Scan(table.copy(alloc)?)),
            Engine::Range(table) => Ok(Engine::Range(table.copy(alloc)?)),
            Engine::Radix(table) => Ok(Engine::Radix(table.copy(alloc)?)),
            Engine::Dxr(table) => Ok(Engine::Dxr(table.copy(alloc)?)),
        }
    }
}
