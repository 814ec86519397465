//! The module: a trie that takes changes, or a copy.
ghost use Rattle.std.specs.Prelude.{◌≡◌, ◌≢◌, ℕ, ◌+◌, ◌*◌, ◌≤◌, List, length, max, Ok, IfOk, OnOk, OnErr};
ghost use Rattle.prefix_width.specs.Prefix.{Block};
ghost use Rattle.module_trait.specs.Edit.{undone, undone_all, AreOfDistinct, HaveAfter};
ghost use Rattle.module_trait.specs.View.{row_at};
ghost use Rattle.radix_lockless.specs.Form.{linked_of, spare_of};
ghost use Rattle.radix_lockless.specs.Store.{by_width};
ghost use Rattle.radix_lockless.specs.Table.{IsEdited, IsRadixOf, IsSameAs, IsSound, nodes_of};
ghost use Rattle.radix_lockless.specs.Trie.{DifferAtMost};

use crate::OutOfMemory;
use crate::edits::apply;
use crate::fill::filled;
use crate::frozen_store::FrozenStore;
use crate::key::Key;
use crate::store::NodeStore;
use crate::trie::Trie;
use module_trait::{Boxed, Edit, Module, RouteView, Steps, Verdict, read_edits};
use prefix_width::{Addr, Prefix};
use std::alloc::Global;
use std::marker::Model;
use std::sync::ledger::Ledger;

/// A path-compressed binary trie: each node has a prefix, and below it on each side of its next bit
/// at most one child, whose prefix is longer and covered. The nodes with an index are the rows; a
/// node without one has two children. A table that was copied from another shares its nodes, and is
/// given its own by its first change.
#[derive(Drop)]
pub struct RadixTable<const W: u32> {
    // Behind a pointer, so that a table is as small as one.
    form: Boxed<Form<W>>,
}

/// The nodes of a table: written to, or a copy that is only read.
#[derive(Drop)]
enum Form<const W: u32> {
    Working(Trie<W>),
    Frozen(FrozenTrie<W>),
}

/// Nodes that are only read, and the key of the root.
#[derive(Drop)]
struct FrozenTrie<const W: u32> {
    nodes: FrozenStore<W>,
    root: Option<Key>,
}

impl<const W: u32> RadixTable<W> {
    /// How many bytes a node takes: 16 where its address takes 32 bits, and 32 where it takes more.
    pub fn node_size() -> usize
        ensures { result ≡ by_width W 16 32 }
    {
        NodeStore::<W>::node_size()
    }
}

impl<const W: u32> Model for RadixTable<W> {
    ghost use Rattle.radix_lockless.specs.Form.{linked_of};
    ghost use Rattle.radix_lockless.specs.Table.{Linked, IsSound};

    ghost Value = { Linked W };

    ghost view = { λ t. linked_of t.form };

    ghost invariant = { λ t. IsSound (linked_of t.form) };
}

/// The same nodes at the same keys, to be written to.
fn thawed<const W: u32>(frozen: &FrozenTrie<W>, alloc: Global) -> Result<Trie<W>, OutOfMemory>
    ensures same { IfOk result (λ trie. IsSameAs (linked_of (Form.Frozen frozen.now)) (linked_of (Form.Working trie))) }
    ensures spare { IfOk result (λ trie. trie.nodes.spare ≡ 0) }
{
    Ok(Trie {
        nodes: frozen.nodes.thaw(alloc)?,
        root: frozen.root,
    })
}

/// The same nodes at the same keys, to be read alone.
fn frozen<const W: u32>(form: &Form<W>, alloc: Global) -> Result<Form<W>, OutOfMemory>
    ensures same { IfOk result (λ copy. IsSameAs (linked_of form.now) (linked_of copy)) }
    ensures made { IfOk result (λ copy. (linked_of copy).made ≤ (linked_of form.now).unsettled) }
{
    let (nodes, root) = match form {
        Form::Working(trie) => (trie.nodes.copy(alloc)?, trie.root),
        Form::Frozen(trie) => (trie.nodes.copy(alloc)?, trie.root),
    };
    Ok(Form::Frozen(FrozenTrie { nodes, root }))
}

/// Makes edits, in nodes that may be written to.
fn edit_form<const W: u32>(
    alloc: Global,
    form: &mut Form<W>,
    edits: &[Edit<W>],
) -> Result<(), OutOfMemory>
    requires { IsSound (linked_of form.old) }
    ensures ok { OnOk result (IsEdited (linked_of form.old) (linked_of form.new) edits.now) }
    ensures err { OnErr result (linked_of form.new ≡ linked_of form.old) }
    ensures room { spare_of form.new ≤ max (spare_of form.old) (2 * length edits.now) }
{
    match form {
        Form::Working(trie) => apply(alloc, trie, edits),
        Form::Frozen(frozen) => {
            let mut trie = thawed(frozen, alloc)?;
            apply(alloc, &mut trie, edits)?;
            *form = Form::Working(trie);
            Ok(())
        }
    }
}

/// Makes edits behind the pointer.
fn make_edits<const W: u32>(
    alloc: Global,
    form: &mut Boxed<Form<W>>,
    edits: &[Edit<W>],
) -> Result<(), OutOfMemory>
    requires { IsSound (linked_of form.old) }
    ensures ok { OnOk result (IsEdited (linked_of form.old) (linked_of form.new) edits.now) }
    ensures err { OnErr result (linked_of form.new ≡ linked_of form.old) }
    ensures room { spare_of form.new ≤ max (spare_of form.old) (2 * length edits.now) }
{
    let mut work = form.replace(Form::Working(Trie::new(alloc)));
    let outcome = edit_form(alloc, &mut work, edits);
    form.replace(work);
    outcome
}

/// Makes the pages that were written to anew.
fn settle_form<const W: u32>(alloc: Global, form: &mut Form<W>) -> Result<(), OutOfMemory>
    ensures same { linked_of form.new ≡ record (linked_of form.old) { unsettled = (linked_of form.new).unsettled } }
    ensures settled { OnOk result ((linked_of form.new).unsettled ≡ 0) }
{
    match form {
        Form::Working(trie) => trie.nodes.settle(alloc),
        Form::Frozen(_) => Ok(()),
    }
}

impl<const W: u32> Module<W> for RadixTable<W> {
    ghost use Rattle.module_trait.specs.declared.edit.Verdict.TheVariants.{Done};
    ghost use Rattle.prefix_width.specs.Choice.{preference as preferred};
    ghost use Rattle.prefix_width.specs.declared.module.Kind.TheVariants.{Radix};

    ghost stands = { λ table rows. IsRadixOf rows table };

    ghost is_bound = { λ _ n. n ≡ W + 1 };

    ghost is_verdict = { λ _ _ verdict. verdict ≡ Done };

    ghost is_batch_verdict = { λ _ _ _ verdict. verdict ≡ Done };

    ghost preference = { λ routes. preferred W routes Radix };

    fn empty(alloc: Global) -> Result<Self, OutOfMemory> {
        let form = Form::Working(Trie::new(alloc));
        Ok(RadixTable {
            form: Boxed::new(alloc, form)?,
        })
    }

    fn load(&mut self, alloc: Global, rows: &[(Prefix<W>, u16)]) -> Result<(), OutOfMemory> {
        let trie = filled(alloc, rows)?;
        self.form.replace(Form::Working(trie));
        Ok(())
    }

    fn find<L: Ledger>(&self, addr: &Addr<W>, steps: &mut Steps<L>) -> Option<u16> {
        match self.form.get() {
            Form::Working(trie) => trie.nodes.longest(trie.root, addr, steps),
            Form::Frozen(trie) => trie.nodes.longest(trie.root, addr, steps),
        }
    }

    fn bound(&self) -> u64 {
        u64::from(W) + 1
    }

    fn change(
        &mut self,
        alloc: Global,
        edit: &Edit<W>,
        view: &RouteView<W>,
    ) -> Result<Verdict, OutOfMemory>
        requires after { row_at view.now edit.now.prefix ≡ edit.now.after }
        requires before { IsRadixOf (undone edit.now view.now) self.old }
        ensures verdict { IfOk result (λ verdict. verdict ≡ Verdict.Done) }
        ensures done { result ≡ Ok Verdict.Done → IsRadixOf view.now self.new }
        ensures not_done { result ≢ Ok Verdict.Done → self.new ≡ self.old }

        // All nodes but at most three are as before.
        ensures few { result ≡ Ok Verdict.Done → DifferAtMost 3 (nodes_of self.old) (nodes_of self.new) }

        // At most three pages are to be settled that were not.
        ensures pages { result ≡ Ok Verdict.Done → self.new.unsettled ≤ self.old.unsettled + 3 }
    {
        let _after = edit.after();
        let _len = view.len();
        make_edits(alloc, &mut self.form, [*edit].as_slice())?;
        Ok(Verdict::Done)
    }

    fn change_batch(
        &mut self,
        alloc: Global,
        edits: &[Edit<W>],
        view: &RouteView<W>,
    ) -> Result<Verdict, OutOfMemory>
        requires distinct { AreOfDistinct edits.now }
        requires after { HaveAfter edits.now view.now }
        requires before { IsRadixOf (undone_all edits.now view.now) self.old }
        ensures verdict { IfOk result (λ verdict. verdict ≡ Verdict.Done) }
        ensures no_batch { result ≢ Ok Verdict.Batch }
        ensures done { result ≡ Ok Verdict.Done → IsRadixOf view.now self.new }
        ensures not_done { result ≢ Ok Verdict.Done → self.new ≡ self.old }

        // All nodes but at most three an edit are as before.
        ensures few { result ≡ Ok Verdict.Done → DifferAtMost (3 * length edits.now) (nodes_of self.old) (nodes_of self.new) }

        // At most three pages an edit are to be settled that were not.
        ensures pages { result ≡ Ok Verdict.Done → self.new.unsettled ≤ self.old.unsettled + 3 * length edits.now }
    {
        read_edits(edits);
        let _len = view.len();
        make_edits(alloc, &mut self.form, edits)?;
        Ok(Verdict::Done)
    }

    fn settle(&mut self, alloc: Global) -> Result<(), OutOfMemory>
        ensures stands { (rows : List (Block × ℕ)) → IsRadixOf rows self.old → IsRadixOf rows self.new }

        // No page is left that was written to, and all else is as before.
        ensures same { self.new ≡ record self.old { unsettled = self.new.unsettled } }
        ensures settled { OnOk result (self.new.unsettled ≡ 0) }
    {
        let mut work = self.form.replace(Form::Working(Trie::new(alloc)));
        let outcome = settle_form(alloc, &mut work);
        self.form.replace(work);
        outcome
    }

    fn copy(&self, alloc: Global) -> Result<Self, OutOfMemory>
        ensures stands { IfOk result (λ copy. (rows : List (Block × ℕ)) → IsRadixOf rows self.now → IsRadixOf rows copy) }

        // The same node at each key.
        ensures same { IfOk result (λ copy. (key : ℕ) → nodes_of copy key ≡ nodes_of self.now key) }

        // It shares each page but those that were written to since the table was settled.
        ensures made { IfOk result (λ copy. copy.made ≤ self.now.unsettled) }
    {
        let form = frozen(self.form.get(), alloc)?;
        Ok(RadixTable {
            form: Boxed::new(alloc, form)?,
        })
    }

    fn pref(routes: u32) -> u8 {
        if routes < 100_000 { 200 } else { 100 }
    }
}
