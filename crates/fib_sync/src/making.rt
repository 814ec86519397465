ghost use Rattle.std.specs.Prelude.{◌≡◌, ℕ, IfOk};
ghost use Rattle.rib_store.specs.Plan.{Planned};
ghost use Rattle.fib_sync.specs.Lawful.{IsLawful, Names};

use crate::OutOfMemory;
use engine_set::{Engine, Entries, Image};
use std::alloc::Global;

/// The image of a version, of whose parts it is known that they are lawful.
pub fn make_lawful<const W: u32>(
    alloc: Global,
    version: u64,
    count: u32,
    routes: u32,
    engine: Engine<W>,
    entries: Entries,
    fresh: Vec<(u16, u32)>,
) -> Result<Image<W>, OutOfMemory>
    requires { (live : ℕ) × (plan : Planned W) × (names : Names W) × IsLawful live plan names version (record { version = version; count = count; routes = routes; engine = engine; entries = entries; fresh = fresh.items }) }
    ensures { IfOk result (λ image. image ≡ record { version = version; count = count; routes = routes; engine = engine.entry; entries = entries; fresh = fresh.items }) }
{
    let _len = entries.len();
    Image::make(alloc, version, count, routes, engine, entries, fresh)
}
