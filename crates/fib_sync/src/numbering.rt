//! The indexes of the last version, and of the next.
ghost use Rattle.std.specs.Prelude.{◌≡◌, ℕ, ◌+◌, None, true, is_some, IfOk, OnOk, OnErr};
ghost use Rattle.prefix_width.specs.Limits.{AreBanks, AreTargets};
ghost use Rattle.rib_store.specs.Plan.{Planned};
ghost use Rattle.plan_cut.specs.VersionTable.{table_at};
ghost use Rattle.fib_sync.specs.Naming.{AreNamesAt};

use crate::OutOfMemory;
use nhop_index::{IndexBook, Indexes};
use rib_store::Rib;
use std::alloc::Global;

/// The indexes of a version, and those of the next one once the book has given them.
#[derive(Drop)]
pub(crate) struct Numbering<const W: u32, const K: u64, const LIVE: u32> {
    pub(crate) now: Indexes<W, K, LIVE>,
    pub(crate) book: IndexBook<W, K, LIVE>,
    /// Kept, since the book can't give a version again.
    pub(crate) next: Option<Indexes<W, K, LIVE>>,
}

impl<const W: u32, const K: u64, const LIVE: u32> Numbering<W, K, LIVE> {
    /// The indexes of version 0, which has the empty table.
    pub(crate) fn begin(alloc: Global) -> Result<Self, OutOfMemory>
        requires banks { AreBanks K }
        requires targets { AreTargets LIVE }
        ensures names { IfOk result (λ names. (plan : Planned W) → AreNamesAt plan 0 names) }
        ensures none { IfOk result (λ names. names.next ≡ None) }
    {
        let mut book = IndexBook::new(alloc);
        let now = book.next(alloc, &[])?;
        Ok(Numbering {
            now,
            book,
            next: None,
        })
    }

    /// Has the book give the indexes of the next version, whose table this is, unless it has given
    /// them. Where memory is wanting nothing changes.
    pub(crate) fn name_next(&mut self, alloc: Global, rib: &Rib<W, LIVE>) -> Result<(), OutOfMemory>
        ensures names { (plan : Planned W) (v : ℕ) → AreNamesAt plan v self.old → rib.now.rows ≡ table_at LIVE plan (v + 1) → AreNamesAt plan v self.new }
        ensures named { OnOk result (is_some self.new.next ≡ true) }
        ensures err { OnErr result (self.new ≡ self.old) }
    {
        if self.next.is_none() {
            let targets = rib.targets(alloc)?;
            let next = self.book.next(alloc, &targets)?;
            self.next = Some(next);
        }
        Ok(())
    }

    /// Goes on to the next version, of which the book has given the indexes.
    pub(crate) fn go_on(&mut self)
        requires { is_some self.old.next ≡ true }
        ensures names { (plan : Planned W) (v : ℕ) → AreNamesAt plan v self.old → AreNamesAt plan (v + 1) self.new }
        ensures none { self.new.next ≡ None }
    {
        if let Some(next) = self.next.take() {
            self.now = next;
        }
    }
}
