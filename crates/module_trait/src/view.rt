//! The rows of a version, by prefix.
ghost use Rattle.std.specs.Prelude.{◌≡◌, [], Some, All, IfOk, OnOk, OnErr, IfSome, IfNone, length, filter};
ghost use Rattle.std.specs.BTreeMap.Range.{IsLeBy, entries_between};
ghost use Rattle.std.specs.declared.ops.Bound.TheVariants.{Included};
ghost use Rattle.prefix_width.specs.Order.{block_cmp};
ghost use Rattle.prefix_width.specs.Prefix.{covers};
ghost use Rattle.module_trait.specs.Rows.{AreBlocks, IsAscending};
ghost use Rattle.module_trait.specs.View.{row_at, with_row, IsCover, NoneCovers};

use crate::OutOfMemory;
use prefix_width::Prefix;
use std::alloc::Global;
use std::collections::BTreeMap;
use std::marker::Model;

/// The rows of a table as an ordered map from prefix to index.
#[derive(Drop)]
pub struct RouteView<const W: u32> {
    rows: BTreeMap<Prefix<W>, u16>,
}

impl<const W: u32> Model for RouteView<W> {
    ghost use Rattle.std.specs.Prelude.{List, ℕ};
    ghost use Rattle.prefix_width.specs.Prefix.{Block};
    ghost use Rattle.module_trait.specs.Rows.{AreBlocks};

    ghost Value = { List (Block × ℕ) };

    ghost view = { λ v. v.rows.entries };

    ghost invariant = { λ v. AreBlocks W v.rows.entries };
}

impl<const W: u32> RouteView<W> {
    /// No row.
    pub fn new(alloc: Global) -> RouteView<W>
        ensures { result ≡ [] }
    {
        RouteView {
            rows: BTreeMap::new(alloc),
        }
    }

    /// Sets the index of a prefix, or takes its row out for `None`.
    pub fn set(&mut self, prefix: Prefix<W>, index: Option<u16>) -> Result<(), OutOfMemory>
        ensures ok { OnOk result (self.new ≡ with_row self.old prefix.entry index) }
        ensures err { OnErr result (self.new ≡ self.old) }
    {
        let _len = prefix.len();
        match index {
            Some(index) => {
                self.rows.insert(prefix, index)?;
            }
            None => {
                self.rows.remove(&prefix);
            }
        }
        Ok(())
    }

    /// The index of a prefix.
    pub fn get(&self, prefix: &Prefix<W>) -> Option<u16>
        ensures { result ≡ row_at self.now prefix.now }
    {
        self.rows.get(prefix).copied()
    }

    /// How many rows there are, and what every view knows of them.
    pub fn len(&self) -> usize
        ensures value { result ≡ length self.now }
        ensures ascending { IsAscending self.now }
        ensures blocks { AreBlocks W self.now }
    {
        self.rows.len()
    }

    /// All rows, ascending.
    pub fn rows(&self, alloc: Global) -> Result<Vec<(Prefix<W>, u16)>, OutOfMemory>
        ensures value { IfOk result (λ rows. rows.items ≡ self.now) }
        ensures blocks { AreBlocks W self.now }
        ensures ascending { IsAscending self.now }
        ensures found { All (λ r. row_at self.now r.0 ≡ Some r.1) self.now }
    {
        let mut rows = Vec::new(alloc);
        for (prefix, index) in self.rows.iter() {
            rows.push((*prefix, *index))?;
        }
        Ok(rows)
    }

    /// The longest row that covers the prefix and is shorter. `None` where there is none.
    pub fn cover(&self, prefix: &Prefix<W>) -> Option<(Prefix<W>, u16)>
        ensures found { IfSome result (IsCover W self.now prefix.now) }
        ensures none { IfNone result (NoneCovers W self.now prefix.now) }
    {
        // What every view knows of its prefixes.
        let _ = &self.rows;
        for len in (0..prefix.len()).rev() {
            if let Some(shorter) = Prefix::masked(prefix.addr(), len) {
                if let Some(index) = self.get(&shorter) {
                    return Some((shorter, index));
                }
            }
        }
        None
    }

    /// The rows that the prefix covers, ascending.
    pub fn rows_under(
        &self,
        alloc: Global,
        prefix: &Prefix<W>,
    ) -> Result<Vec<(Prefix<W>, u16)>, OutOfMemory>
        ensures { IfOk result (λ rows. rows.items ≡ filter (λ r. covers W prefix.now r.0) self.now) }
    {
        // What every view knows of its prefixes.
        let _ = &self.rows;
        let _len = prefix.len();
        match Prefix::masked(prefix.last(), W as u8) {
            Some(last) => self.between(alloc, prefix, &last),
            None => Ok(Vec::new(alloc)),
        }
    }

    /// The rows from one prefix to another, ascending.
    fn between(
        &self,
        alloc: Global,
        from: &Prefix<W>,
        to: &Prefix<W>,
    ) -> Result<Vec<(Prefix<W>, u16)>, OutOfMemory>
        requires { IsLeBy block_cmp from.now to.now }
        ensures value { IfOk result (λ rows. rows.items ≡ entries_between block_cmp (Included from.now) (Included to.now) self.now) }
        ensures blocks { AreBlocks W self.now }
    {
        let mut rows = Vec::new(alloc);
        for (prefix, index) in self.rows.range(*from..=*to) {
            rows.push((*prefix, *index))?;
        }
        Ok(rows)
    }
}
