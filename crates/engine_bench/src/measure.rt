//! Sums and times of lookups.
ghost use Rattle.std.specs.Prelude.{◌≡◌, ℕ, List, IfOk};
ghost use Rattle.prefix_width.specs.Prefix.{Block};
ghost use Rattle.module_trait.specs.Rows.{AreRows};
ghost use Rattle.engine_bench.specs.Sum.{check_sum};

use bench_kit::{Fault, cpu_time};
use module_trait::{Module, Steps};
use prefix_width::{Addr, Prefix};
use std::sync::ledger::Ledger;
use std::time::{CpuClock, Duration};

/// How often the addresses are looked up. The fastest round counts.
const ROUNDS: u32 = 5;

/// What a module was measured at.
#[derive(Clone, Copy)]
pub(crate) struct Figures {
    /// The processor time that the build took.
    pub(crate) build: Duration,
    /// The processor time of one lookup of every address.
    pub(crate) lookups: Duration,
    /// The same in a copy of the module, as readers have.
    pub(crate) copied: Duration,
    /// The check sum of the answers.
    pub(crate) sum: u64,
}

/// The check sum of the answers: each index, 0 for none, times the place of its address, counted
/// from 1, modulo 2^64.
pub(crate) fn sum_of<const W: u32, M: Module<W>, L: Ledger>(
    table: &M,
    addrs: &[Addr<W>],
    steps: &mut Steps<L>,
) -> u64
    ensures { (rows : List (Block × ℕ)) → M.stands table.now rows → result ≡ check_sum W rows addrs.now }
{
    let mut sum = 0u64;
    for i in 0..addrs.len() {
        let index = table.lookup(addrs[i], steps).unwrap_or(0);
        sum = sum.wrapping_add((i as u64 + 1).wrapping_mul(u64::from(index)));
    }
    sum
}

/// Builds a module and looks the addresses up in it and in a copy.
pub(crate) fn measure<const W: u32, M: Module<W>, R: CpuClock + AllocGlobal, L: Ledger>(
    rt: &R,
    rows: &[(Prefix<W>, u16)],
    addrs: &[Addr<W>],
    steps: &mut Steps<L>,
) -> Result<Figures, Fault>
    requires { AreRows rows.now }
    ensures { IfOk result (λ figures. figures.sum ≡ check_sum W rows.now addrs.now) }
{
    let start = cpu_time(rt)?;
    let table = M::build(rt.alloc(), rows)?;
    let build = cpu_time(rt)?.saturating_sub(start);
    let copy = table.copy(rt.alloc())?;
    let (lookups, sum) = time_lookups(rt, &table, addrs, steps)?;
    let (copied, _sum) = time_lookups(rt, &copy, addrs, steps)?;
    Ok(Figures {
        build,
        lookups,
        copied,
        sum,
    })
}

/// The processor time of the fastest lookup of every address, and the check sum of the answers.
fn time_lookups<const W: u32, M: Module<W>, R: CpuClock, L: Ledger>(
    rt: &R,
    table: &M,
    addrs: &[Addr<W>],
    steps: &mut Steps<L>,
) -> Result<(Duration, u64), Fault>
    ensures { IfOk result (λ r. (rows : List (Block × ℕ)) → M.stands table.now rows → r.1 ≡ check_sum W rows addrs.now) }
{
    let mut sum = sum_of(table, addrs, steps);
    let mut least = Duration::MAX;
    for _ in 0..ROUNDS {
        let start = cpu_time(rt)?;
        sum = sum_of(table, addrs, steps);
        least = least.min(cpu_time(rt)?.saturating_sub(start));
    }
    Ok((least, sum))
}
