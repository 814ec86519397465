//! A table that takes changes, or a frozen copy.
ghost use Rattle.std.specs.Prelude.{◌≡◌, ℕ, ◌+◌, ◌*◌, ◌^◌, ◌<◌, ◌≤◌, Some, IfOk, OnOk, OnErr, slice_get};
ghost use Rattle.std.specs.Map.{keys_of};
ghost use Rattle.module_trait.specs.Starts.{IsUp};
ghost use Rattle.dxr_chunks.specs.Chunk.{AreMade};
ghost use Rattle.dxr_chunks.specs.Form.{chunked, frozen as frozen_as, working};
ghost use Rattle.dxr_chunks.specs.Fragments.{index_in};
ghost use Rattle.dxr_chunks.specs.Table.{AreRightChunks, IsLinked, IsRemade, IsSameAs};

use crate::OutOfMemory;
use crate::apply::remake;
use crate::find::index_in_chunk;
use crate::made::Made;
use crate::making::make_all;
use crate::store::{FrozenStore, Store};
use module_trait::Steps;
use std::alloc::Global;
use std::sync::ledger::Ledger;

/// The cells and runs of a table: written to, or a copy that is only read.
#[derive(Drop)]
pub(crate) enum Form {
    Working(Store),
    Frozen(FrozenStore),
}

/// A store that answers as cells do.
pub(crate) fn store_of(alloc: Global, cells: &[(u128, u16)]) -> Result<Store, OutOfMemory>
    requires first { slice_get (keys_of cells.now) 0 ≡ Some 0 }
    requires ascending { IsUp (keys_of cells.now) }
    ensures linked { IfOk result (λ store. IsLinked (working store)) }
    ensures chunks { IfOk result (λ store. AreRightChunks (index_in cells.now) (working store)) }
{
    let news = make_all(alloc, cells)?;
    let mut store = Store::new(alloc)?;
    remake(alloc, &mut store, news)?;
    Ok(store)
}

/// The same cells and runs, to be written to.
fn thawed(frozen: &FrozenStore, alloc: Global) -> Result<Store, OutOfMemory>
    ensures same { IfOk result (λ store. IsSameAs (frozen_as frozen.now) (working store)) }
    ensures settled { IfOk result (λ store. (working store).unsettled ≡ 0) }
{
    Ok(Store {
        cells: frozen.cells.thaw(alloc)?,
        runs: frozen.runs.thaw(alloc)?,
    })
}

/// The same cells and runs, to be read alone.
pub(crate) fn frozen(form: &Form, alloc: Global) -> Result<Form, OutOfMemory>
    ensures same { IfOk result (λ copy. IsSameAs (chunked form.now) (chunked copy)) }
    ensures made { IfOk result (λ copy. (chunked copy).made ≤ (chunked form.now).unsettled) }
{
    let (cells, runs) = match form {
        Form::Working(store) => (store.cells.copy(alloc)?, store.runs.copy(alloc)?),
        Form::Frozen(store) => (store.cells.copy(alloc)?, store.runs.copy(alloc)?),
    };
    Ok(Form::Frozen(FrozenStore { cells, runs }))
}

/// The index at an offset in a chunk, 0 for none.
pub(crate) fn index_in_form<L: Ledger>(
    form: &Form,
    chunk: usize,
    offset: u16,
    steps: &mut Steps<L>,
) -> u16
    requires chunk { chunk < 2 ^ 16 }
    requires linked { IsLinked (chunked form.now) }
    ensures answer { (answer : ℕ → ℕ) → AreRightChunks answer (chunked form.now) → result ≡ answer (chunk * 2 ^ 16 + offset) }
    ensures cost { (answer : ℕ → ℕ) → AreRightChunks answer (chunked form.now) → steps.new ≤ steps.old + 19 }
{
    match form {
        Form::Working(store) => index_in_chunk(&store.cells, &store.runs, chunk, offset, steps),
        Form::Frozen(store) => index_in_chunk(&store.cells, &store.runs, chunk, offset, steps),
    }
}

/// Puts chunks in, where they may be written to.
pub(crate) fn remake_form(
    alloc: Global,
    form: &mut Form,
    news: Vec<(u32, Made)>,
) -> Result<(), OutOfMemory>
    requires linked { IsLinked (chunked form.old) }
    requires made { (answer : ℕ → ℕ) × AreMade answer news.items }
    ensures ok { OnOk result (IsRemade (chunked form.old) (chunked form.new) news.items) }
    ensures err { OnErr result (chunked form.new ≡ chunked form.old) }
{
    match form {
        Form::Working(store) => remake(alloc, store, news),
        Form::Frozen(frozen) => {
            let mut store = thawed(frozen, alloc)?;
            remake(alloc, &mut store, news)?;
            *form = Form::Working(store);
            Ok(())
        }
    }
}

/// Makes the pages that were written to anew.
pub(crate) fn settle_form(alloc: Global, form: &mut Form) -> Result<(), OutOfMemory>
    ensures same { chunked form.new ≡ record (chunked form.old) { unsettled = (chunked form.new).unsettled } }
    ensures settled { OnOk result ((chunked form.new).unsettled ≡ 0) }
{
    match form {
        Form::Working(store) => {
            store.cells.settle(alloc)?;
            store.runs.settle(alloc)
        }
        Form::Frozen(_) => Ok(()),
    }
}
