ghost use Rattle.std.specs.Prelude.{◌≡◌, ℕ, All};
ghost use Rattle.rib_store.specs.Plan.{Planned};
ghost use Rattle.rib_store.specs.Weights.{IsWeighted};
ghost use Rattle.plan_cut.specs.VersionTable.{answer_at};
ghost use Rattle.fib_sync.specs.Lawful.{IsLawful, IsSent, Names};

use engine_set::Image;
use module_trait::Steps;
use prefix_width::Addr;
use std::sync::ledger::Ledger;

/// The index for an address and a flow: where the image is lawful for a version of a plan, it is
/// sent to the nexthop that the scan of that version's table gives, and is none where that is.
pub fn lookup<L: Ledger, const W: u32>(
    image: &Image<W>,
    addr: Addr<W>,
    flow: u32,
    steps: &mut Steps<L>,
) -> Option<u16>
    ensures { (live : ℕ) (plan : Planned W) (names : Names W) (v : ℕ) → All IsWeighted plan.commands → IsLawful live plan names v image.now → IsSent names result (answer_at live plan v addr.entry flow) }
{
    image.resolve(addr, flow, steps)
}
