//! The prefixes that commands touch.
ghost use Rattle.std.specs.Prelude.{◌≡◌, [], ◌∷◌, IfOk, OnOk, OnErr, length};
ghost use Rattle.std.specs.List.Sorted.{IsStrictlySortedBy};
ghost use Rattle.prefix_width.specs.Order.{block_cmp};
ghost use Rattle.module_trait.specs.Rows.{HaveIndexes};
ghost use Rattle.module_trait.specs.View.{row_at};
ghost use Rattle.fib_edits.specs.Edits.{edits_at};
ghost use Rattle.fib_edits.specs.Named.{number_in, AreNamed, index_at};
ghost use Rattle.fib_edits.specs.Touching.{Gains, touched_by, flushed_of};

use crate::OutOfMemory;
use crate::version_view::index_at;
use module_trait::{Edit, RouteView};
use nhop_index::Indexes;
use prefix_width::Prefix;
use rib_store::{Command, Rib};
use std::alloc::Global;
use std::collections::BTreeSet;
use std::marker::Model;

/// The prefixes that commands have touched since a version. A prefix that is not here has the row
/// that it had then. One that is here may have it too.
#[derive(Drop)]
pub struct Touched<const W: u32> {
    prefixes: BTreeSet<Prefix<W>>,
}

impl<const W: u32> Model for Touched<W> {
    ghost use Rattle.std.specs.Prelude.{List};
    ghost use Rattle.prefix_width.specs.Prefix.{Block};

    ghost Value = { List Block };

    ghost view = { λ t. t.prefixes.keys };
}

impl<const W: u32> Touched<W> {
    /// No prefix.
    pub fn new(alloc: Global) -> Touched<W>
        ensures { result ≡ [] }
    {
        Touched {
            prefixes: BTreeSet::new(alloc),
        }
    }

    /// Adds the prefixes whose rows the command may change, asked before the table runs it. An error
    /// takes none away, and may have added some.
    pub fn add_command<const LIVE: u32>(
        &mut self,
        command: &Command<W>,
        rib: &Rib<W, LIVE>,
    ) -> Result<(), OutOfMemory>
        ensures ok { OnOk result (Gains self.old (touched_by rib.now.rows command.now) self.new) }
        ensures kept { Gains self.old [] self.new }
    {
        match *command {
            Command::Add { prefix, path: _ } => self.add(prefix),
            Command::Change { prefix, path: _ } => self.add(prefix),
            Command::Delete { prefix, gateway: _ } => self.add(prefix),
            Command::Flush => self.add_flushed(rib),
            Command::Tick { ms: _ } => Ok(()),
            Command::Sync => Ok(()),
            Command::Algo { setting: _ } => Ok(()),
        }
    }

    /// Takes out all prefixes, as after a version.
    pub fn clear(&mut self)
        ensures { self.new ≡ [] }
    {
        self.prefixes.clear();
    }

    /// How many prefixes there are. They ascend.
    pub fn len(&self) -> usize
        ensures count { result ≡ length self.now }
        ensures ascending { IsStrictlySortedBy block_cmp self.now }
    {
        self.prefixes.len()
    }

    /// The edits of these prefixes, ascending, from the indexes of the view to those of the table:
    /// one for each prefix whose index differs, or that has a row in one of the two alone. Each row
    /// of the table has an index, and so has each row of the view.
    pub fn edits<const K: u64, const LIVE: u32>(
        &self,
        alloc: Global,
        rib: &Rib<W, LIVE>,
        indexes: &Indexes<W, K, LIVE>,
        view: &RouteView<W>,
    ) -> Result<Vec<Edit<W>>, OutOfMemory>
        requires named { AreNamed (number_in indexes.now.names) rib.now.rows }
        requires indexes { HaveIndexes view.now }
        ensures { IfOk result (λ edits. edits.items ≡ edits_at (row_at view.now) (index_at (number_in indexes.now.names) rib.now.rows) self.now) }
    {
        let mut edits = Vec::new(alloc);
        for prefix in self.prefixes.iter() {
            let after = index_at(rib, indexes, prefix);
            if let Some(edit) = Edit::new(*prefix, view.get(prefix), after) {
                edits.push(edit)?;
            }
        }
        Ok(edits)
    }

    /// Adds a prefix.
    fn add(&mut self, prefix: Prefix<W>) -> Result<(), OutOfMemory>
        ensures ok { OnOk result (Gains self.old (prefix.entry ∷ []) self.new) }
        ensures err { OnErr result (self.new ≡ self.old) }
    {
        self.prefixes.insert(prefix)?;
        Ok(())
    }

    /// Adds the prefixes of the routes that a flush takes out.
    fn add_flushed<const LIVE: u32>(&mut self, rib: &Rib<W, LIVE>) -> Result<(), OutOfMemory>
        ensures ok { OnOk result (Gains self.old (flushed_of rib.now.rows) self.new) }
        ensures kept { Gains self.old [] self.new }
    {
        for (prefix, paths) in rib.iter() {
            if paths.has_via() {
                self.add(*prefix)?;
            }
        }
        Ok(())
    }
}
