//! The book that gives targets their indexes.
use crate::OutOfMemory;
use crate::ages::age;
use crate::indexes::Indexes;
use crate::naming::{Named, are_live, name_targets};
use crate::table::NameTable;
use nhgrp_slots::Target;
use std::alloc::Global;
use std::marker::Model;
use std::sync::Arc;

/// The book of indexes. A live target keeps its index from version to version, and a new one takes
/// the least that neither its version nor one of the `K - 1` before has, so that an index names two
/// targets only in versions that are `K` apart or more. `K` is 2 to 8 and `LIVE`, the most live
/// targets of a version, 1 to 4,095.
#[derive(Drop)]
pub struct IndexBook<const W: u32, const K: u64, const LIVE: u32> {
    last: Option<Arc<NameTable<W>>>,
    ages: Vec<u8>,
}

impl<const W: u32, const K: u64, const LIVE: u32> Model for IndexBook<W, K, LIVE> {
    ghost use Rattle.nhop_index.specs.Book.{Memory, IsBook, names_in};

    ghost Value = { Memory W };

    ghost view = { λ b. record { last = names_in b.last; ages = b.ages.items } };

    ghost invariant = { λ b. IsBook K LIVE (record { last = names_in b.last; ages = b.ages.items }) };
}

/// A version's table, and the indexes that the version before hadn't.
#[derive(Drop)]
struct NextTable<const W: u32> {
    table: Arc<NameTable<W>>,
    fresh: Vec<u16>,
}

impl<const W: u32, const K: u64, const LIVE: u32> IndexBook<W, K, LIVE> {
    ghost use Rattle.std.specs.Prelude.{◌≡◌, ℕ, ◌≤◌, List, [], ◌∷◌, length, IfOk, OnErr};
    ghost use Rattle.std.specs.Arc.{arc_value};
    ghost use Rattle.std.specs.List.Sorted.{IsStrictlySortedBy, IsStrictlyIncreasing};
    ghost use Rattle.std.specs.Map.{keys_of};
    ghost use Rattle.prefix_width.specs.Limits.{AreBanks, AreTargets};
    ghost use Rattle.nhgrp_slots.specs.Target.{target_cmp};
    ghost use Rattle.nhgrp_slots.specs.declared.target.Target.{Target};
    ghost use Rattle.nhop_index.specs.Indexes.{next_names, fresh_in};
    ghost use Rattle.nhop_index.specs.Book.{Remembers, AreIndexes};

    /// A book that has given no version. There are 2 to 8 banks, and room for 1 to 4,095 live
    /// targets.
    pub fn new(alloc: Global) -> IndexBook<W, K, LIVE>
        requires banks { AreBanks K }
        requires targets { AreTargets LIVE }
        ensures { Remembers K [] result }
    {
        IndexBook {
            last: None,
            ages: Vec::new(alloc),
        }
    }

    /// The indexes of the next version, which has these live targets, in their order and each once.
    /// An error leaves the book as it was. There are no more of them than there is room for.
    pub fn next(
        &mut self,
        alloc: Global,
        live: &[Target<W>],
    ) -> Result<Indexes<W, K, LIVE>, OutOfMemory>
        requires ascends { IsStrictlySortedBy target_cmp live.now }
        requires few { length live.now ≤ LIVE }
        ensures model { IfOk result (λ n. (versions : List (List (Target W × ℕ))) → Remembers K versions self.old → (n.names ≡ next_names target_cmp K versions live.now) × Remembers K (n.names ∷ versions) self.new) }
        ensures targets { IfOk result (λ n. keys_of n.names ≡ live.now) }
        ensures fresh { IfOk result (λ n. n.fresh ≡ fresh_in self.old.last n.names) }
        ensures indexes { IfOk result (λ n. AreIndexes K LIVE n) }
        ensures err { OnErr result (self.new ≡ self.old) }
    {
        let NextTable { table, fresh } = self.next_table(alloc, live)?;
        let last = Arc::try_clone(&table)?;
        let fresh = Arc::new(alloc, fresh)?;
        age(&mut self.ages, &table)?;
        self.last = Some(last);
        Ok(Indexes { table, fresh })
    }

    /// The table of the next version: that of the last one where its targets are the same.
    fn next_table(&self, alloc: Global, live: &[Target<W>]) -> Result<NextTable<W>, OutOfMemory>
        requires ascends { IsStrictlySortedBy target_cmp live.now }
        requires few { length live.now ≤ LIVE }
        ensures names { IfOk result (λ n. (versions : List (List (Target W × ℕ))) → Remembers K versions self.now → arc_value n.table ≡ next_names target_cmp K versions live.now) }
        ensures fresh { IfOk result (λ n. n.fresh.items ≡ fresh_in self.now.last (arc_value n.table)) }
        ensures ascend { IfOk result (λ n. IsStrictlyIncreasing n.fresh.items) }
    {
        if let Some(last) = &self.last {
            if are_live(last.names(), live) {
                let table = Arc::try_clone(last)?;
                let fresh = Vec::new(alloc);
                return Ok(NextTable { table, fresh });
            }
        }
        let Named { names, fresh } = name_targets::<W, K>(
            alloc,
            self.last_names(),
            &self.ages,
            live,
        )?;
        let table = Arc::new(alloc, NameTable::new(alloc, names)?)?;
        Ok(NextTable { table, fresh })
    }

    /// The targets of the last version with their indexes.
    fn last_names(&self) -> &[(Target<W>, u16)]
        ensures names { result.now ≡ self.now.last }
        ensures sorted { IsStrictlySortedBy target_cmp (keys_of self.now.last) }
    {
        match &self.last {
            Some(last) => last.names(),
            None => &[],
        }
    }
}
