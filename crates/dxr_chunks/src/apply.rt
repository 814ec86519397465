//! New chunks are put in the places of old ones.
ghost use Rattle.std.specs.Prelude.{◌≡◌, ℕ, ◌+◌, ◌≤◌, length, max, OnOk, OnErr};
ghost use Rattle.dxr_chunks.specs.Chunk.{AreMade, runs_in};
ghost use Rattle.dxr_chunks.specs.Form.{working};
ghost use Rattle.dxr_chunks.specs.Store.{HasLinks};
ghost use Rattle.dxr_chunks.specs.Table.{IsRemade};

use crate::OutOfMemory;
use crate::made::Made;
use crate::store::Store;
use module_trait::{Counting, Steps, run_apart};
use std::alloc::Global;
use std::mem;
use std::sync::ledger::Ledger;

/// Chunks that are put into a store, the last one first, with a counter.
#[derive(Drop)]
struct Remaking {
    store: Store,
    news: Vec<(u32, Made)>,
}

impl Counting for Remaking {
    ghost use Rattle.std.specs.Prelude.{ℕ, ◌≤◌};
    ghost use Rattle.dxr_chunks.specs.Chunk.{AreMade, runs_in};
    ghost use Rattle.dxr_chunks.specs.Form.{working};
    ghost use Rattle.dxr_chunks.specs.Store.{HasLinks};
    ghost use Rattle.dxr_chunks.specs.Table.{IsRemade};

    ghost ready = { λ work. HasLinks work.store × ((answer : ℕ → ℕ) × AreMade answer work.news.items) × (runs_in work.news.items ≤ work.store.runs.spare) };

    ghost leaves = { λ old new. IsRemade (working old.store) (working new.store) old.news.items };

    fn run<L: Ledger>(&mut self, steps: &mut Steps<L>) {
        while let Some((chunk, made)) = self.news.pop() {
            self.store.put(chunk as usize, made, steps);
        }
    }
}

/// How many of them are runs.
fn run_count(news: &[(u32, Made)]) -> usize
    ensures { result ≡ runs_in news.now }
{
    let mut count = 0;
    for new in news {
        count += new.1.runs();
    }
    count
}

/// Puts chunks into a store. The memory for it is taken before the first write.
pub(crate) fn remake(
    alloc: Global,
    store: &mut Store,
    news: Vec<(u32, Made)>,
) -> Result<(), OutOfMemory>
    requires links { HasLinks store.old }
    requires made { (answer : ℕ → ℕ) × AreMade answer news.items }
    ensures ok { OnOk result (IsRemade (working store.old) (working store.new) news.items) }
    ensures err { OnErr result (working store.new ≡ working store.old) }
{
    store.runs.reserve(run_count(news.as_slice()))?;
    let mut work = Remaking {
        store: mem::replace(store, Store::bare(alloc)),
        news,
    };
    let outcome = run_apart(&mut work, alloc);
    let Remaking { store: after, .. } = work;
    *store = after;
    outcome
}
