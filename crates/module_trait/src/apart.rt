//! Work that takes steps of a count of its own.
ghost use Rattle.std.specs.Prelude.{◌≡◌, ◌<◌, OnOk, OnErr};

use crate::OutOfMemory;
use crate::steps::Steps;
use std::alloc::Global;
use std::marker::Brand;
use std::sync::ledger::{Blank, Ledger};

/// Work that reads through a counter.
pub trait Counting {
    /// It may be done.
    ghost ready: { Self → Type 0 };

    /// It leaves this.
    ghost leaves: { Self → Self → Type 0 };

    /// Does the work. It takes no memory.
    fn run<L: Ledger>(&mut self, steps: &mut Steps<L>)
        requires { ready self.old }
        ensures { leaves self.old self.new };
}

/// Does the work with the counter of a ledger, which the blank is for.
fn run_with<T: Counting, L: Ledger>(
    work: &mut T,
    alloc: Global,
    blank: Blank,
) -> Result<(), OutOfMemory>
    requires name { blank.name ≡ L.name }
    requires parts { blank.parts ≡ L.parts }
    requires some { 0 < blank.parts }
    requires ready { T.ready work.old }
    ensures ok { OnOk result (T.leaves work.old work.new) }
    ensures err { OnErr result (work.new ≡ work.old) }
{
    let mut steps: Steps<L> = Steps::new(alloc, blank)?;
    work.run(&mut steps);
    Ok(())
}

/// Does the work with a counter of its own. The work is ready for it.
pub fn run_apart<T: Counting>(work: &mut T, alloc: Global) -> Result<(), OutOfMemory>
    requires ready { T.ready work.old }
    ensures ok { OnOk result (T.leaves work.old work.new) }
    ensures err { OnErr result (work.new ≡ work.old) }
{
    run_with::<T, Brand>(work, alloc, Blank::new(1))
}
