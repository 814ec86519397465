//! Why a run ends early.
ghost use Rattle.std.specs.Prelude.{◌≡◌};
ghost use Rattle.bench_kit.specs.Fault.{code_of};

use std::alloc::{AllocError, AllocFailed};
use thiserror::Error;

/// Why a run ends early.
#[derive(Clone, Copy, Debug, PartialEq, Eq, Error)]
pub enum Fault {
    /// The words are not taken.
    #[error("words that it does not take")]
    Usage,
    /// The clock gave no time.
    #[error("clock fault")]
    Clock,
    /// A write failed.
    #[error("write fault")]
    Write,
    /// Memory is wanting.
    #[error("out of memory")]
    OutOfMemory,
    /// What is measured could not be made.
    #[error("nothing to measure")]
    Unmade,
    /// An answer is not the one of the plain program.
    #[error("wrong answer")]
    Answer,
}

impl Fault {
    /// The exit status of the process, from 2 on.
    pub fn code(&self) -> u8
        ensures { result ≡ code_of self.now }
    {
        match self {
            Fault::Usage => 2,
            Fault::Clock => 3,
            Fault::Write => 4,
            Fault::OutOfMemory => 5,
            Fault::Unmade => 6,
            Fault::Answer => 7,
        }
    }
}

impl From<AllocError> for Fault {
    ghost use Rattle.std.specs.Prelude.{◌≡◌};
    ghost use Rattle.bench_kit.specs.declared.fault.Fault.TheVariants.{OutOfMemory};

    ghost from_gives = { λ _ fault. fault ≡ OutOfMemory };

    fn from(_: AllocError) -> Self {
        Fault::OutOfMemory
    }
}

impl<T: Drop> From<AllocFailed<T>> for Fault {
    ghost use Rattle.std.specs.Prelude.{◌≡◌};
    ghost use Rattle.bench_kit.specs.declared.fault.Fault.TheVariants.{OutOfMemory};

    ghost from_gives = { λ _ fault. fault ≡ OutOfMemory };

    fn from(_: AllocFailed<T>) -> Self {
        Fault::OutOfMemory
    }
}
