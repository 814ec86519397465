ghost use Rattle.std.specs.Prelude.{◌≡◌, ◌+◌, ◌<◌, ◌≤◌, [], IfOk, IfErr, OnOk, length, All};
ghost use Rattle.bench_kit.specs.declared.fault.Fault.TheVariants.{OutOfMemory};

use crate::stamp::{Control, Reader, Stamp};
use bench_kit::Fault;
use epoch_core::start;
use std::alloc::Global;
use std::sync::Arc;

/// A table of 1 to 64 readers at version 0.
#[tactic(auto, using(crate::proofs::NameLemmas::none_fit))]
pub(crate) fn start_table(alloc: Global, readers: u8) -> Result<(Control, Vec<Reader>), Fault>
    requires { (1 ≤ readers) × (readers ≤ 64) }
    ensures version { IfOk result (λ t. t.0.own.version ≡ 0) }
    ensures readers { IfOk result (λ t. (t.0.own.readers ≡ readers) × (length t.1.items ≡ readers)) }
    ensures table { IfOk result (λ t. All (λ s. s.table ≡ t.0.table) t.1.items) }
    ensures new { IfOk result (λ t. All (λ s. s.own.enters ≡ 0) t.1.items) }
    ensures fault { IfErr result (λ e. e ≡ OutOfMemory) }
{
    let first = Arc::new(alloc, Stamp(0))?;
    match start(alloc, (), readers, 0, &first) {
        Ok(seats) => Ok(seats),
        Err(_) => Err(Fault::OutOfMemory),
    }
}

/// The version that was published last, once all seats have ended.
pub(crate) fn close_table(alloc: Global, control: Control, seats: Vec<Reader>) -> Result<u64, Fault>
    requires table { All (λ s. s.table ≡ control.table) seats.items }
    requires all { control.own.readers ≤ length seats.items }
    ensures last { IfOk result (λ v. v ≡ control.own.version) }
    ensures fault { IfErr result (λ e. e ≡ OutOfMemory) }
{
    match control.close(alloc, seats) {
        Ok(closed) => Ok(closed.version),
        Err(_) => Err(Fault::OutOfMemory),
    }
}
