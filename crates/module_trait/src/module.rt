//! What every lookup module does.
ghost use Rattle.std.specs.Prelude.{◌≡◌, ◌≢◌, ℕ, ◌+◌, ◌≤◌, List, [], IfOk, OnOk, OnErr};
ghost use Rattle.prefix_width.specs.Prefix.{Block};
ghost use Rattle.prefix_width.specs.Longest.{longest};
ghost use Rattle.module_trait.specs.Rows.{AreRows, index_of};
ghost use Rattle.module_trait.specs.View.{row_at};
ghost use Rattle.module_trait.specs.Edit.{IndexChange, undone, undone_all, HaveAfter, AreOfDistinct};
ghost use Rattle.module_trait.specs.declared.edit.Verdict.{Verdict as VerdictOf};

use crate::OutOfMemory;
use crate::edit::{Edit, Verdict};
use crate::steps::Steps;
use crate::view::RouteView;
use prefix_width::{Addr, Prefix};
use std::alloc::Global;
use std::sync::ledger::Ledger;

/// A lookup module for addresses of `W` bits.
pub trait Module<const W: u32>: Drop {
    /// It stands for these rows.
    ghost stands: { Self → List (Block × ℕ) → Type 0 };

    /// This is the most steps that a lookup takes where it stands for these rows.
    ghost is_bound: { List (Block × ℕ) → ℕ → Type 0 };

    /// This is the answer to a change of the first rows to the second.
    ghost is_verdict: { List (Block × ℕ) → List (Block × ℕ) → VerdictOf → Type 0 };

    /// This is the answer to a batch of edits, which changes the first rows to the second.
    ghost is_batch_verdict: { List IndexChange → List (Block × ℕ) → List (Block × ℕ) → VerdictOf → Type 0 };

    /// How much it is preferred for a number of rows.
    ghost preference: { ℕ → ℕ };

    /// A module that stands for no row.
    fn empty(alloc: Global) -> Result<Self, OutOfMemory>
        ensures { IfOk result (λ table. stands table []) };

    /// Takes these rows in place of those that it has. On an error it is as before.
    fn load(&mut self, alloc: Global, rows: &[(Prefix<W>, u16)]) -> Result<(), OutOfMemory>
        requires { AreRows rows.now }
        ensures ok { OnOk result (stands self.new rows.now) }
        ensures err { OnErr result (self.new ≡ self.old) };

    /// As [`Module::lookup`], with the address by reference.
    fn find<L: Ledger>(&self, addr: &Addr<W>, steps: &mut Steps<L>) -> Option<u16>
        ensures answer { (rows : List (Block × ℕ)) → stands self.now rows → result ≡ index_of (longest W rows addr.now) }
        ensures cost { (rows : List (Block × ℕ)) (n : ℕ) → stands self.now rows → is_bound rows n → steps.new ≤ steps.old + n };

    /// A module that stands for these rows, whose prefixes ascend.
    final fn build(alloc: Global, rows: &[(Prefix<W>, u16)]) -> Result<Self, OutOfMemory>
        requires { AreRows rows.now }
        ensures { IfOk result (λ table. stands table rows.now) }
    {
        let mut table = Self::empty(alloc)?;
        table.load(alloc, rows)?;
        Ok(table)
    }

    /// The index of the longest row that contains the address, `None` where no row does. It takes
    /// at most [`Module::bound`] steps, and no memory.
    final fn lookup<L: Ledger>(&self, addr: Addr<W>, steps: &mut Steps<L>) -> Option<u16>
        ensures answer { (rows : List (Block × ℕ)) → stands self.now rows → result ≡ index_of (longest W rows addr.entry) }
        ensures cost { (rows : List (Block × ℕ)) (n : ℕ) → stands self.now rows → is_bound rows n → steps.new ≤ steps.old + n }
    {
        self.find(&addr, steps)
    }

    /// The most steps that a lookup takes.
    fn bound(&self) -> u64
        ensures { (rows : List (Block × ℕ)) → stands self.now rows → is_bound rows result };

    /// Takes one edit over, after which the rows are the view's.
    fn change(
        &mut self,
        alloc: Global,
        edit: &Edit<W>,
        view: &RouteView<W>,
    ) -> Result<Verdict, OutOfMemory>
        requires after { row_at view.now edit.now.prefix ≡ edit.now.after }
        requires before { stands self.old (undone edit.now view.now) }
        ensures verdict { IfOk result (is_verdict (undone edit.now view.now) view.now) }
        ensures done { result ≡ Ok Verdict.Done → stands self.new view.now }
        ensures not_done { result ≢ Ok Verdict.Done → self.new ≡ self.old };

    /// Takes edits of distinct prefixes over, after which the rows are the view's. The answer is
    /// Done or Rebuild.
    fn change_batch(
        &mut self,
        alloc: Global,
        edits: &[Edit<W>],
        view: &RouteView<W>,
    ) -> Result<Verdict, OutOfMemory>
        requires distinct { AreOfDistinct edits.now }
        requires after { HaveAfter edits.now view.now }
        requires before { stands self.old (undone_all edits.now view.now) }
        ensures verdict { IfOk result (is_batch_verdict edits.now (undone_all edits.now view.now) view.now) }
        ensures no_batch { result ≢ Ok Verdict.Batch }
        ensures done { result ≡ Ok Verdict.Done → stands self.new view.now }
        ensures not_done { result ≢ Ok Verdict.Done → self.new ≡ self.old };

    /// Readies it for copies: a copy after it shares what did not change. What it stands for stays.
    fn settle(&mut self, alloc: Global) -> Result<(), OutOfMemory>
        ensures { (rows : List (Block × ℕ)) → stands self.old rows → stands self.new rows }
    {
        Ok(())
    }

    /// A module that stands for the same rows.
    fn copy(&self, alloc: Global) -> Result<Self, OutOfMemory>
        ensures { IfOk result (λ copy. (rows : List (Block × ℕ)) → stands self.now rows → stands copy rows) };

    /// How much it is preferred for a number of routes.
    fn pref(routes: u32) -> u8
        ensures { result ≡ preference routes };
}
