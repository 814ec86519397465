//! The count of steps.
ghost use Rattle.std.specs.Prelude.{◌≡◌, ◌+◌, ◌<◌, IfOk};

use crate::OutOfMemory;
use std::alloc::Global;
use std::marker::Model;
use std::sync::ledger::{Blank, Book, Ledger, Share};

/// A counter of reads, which contracts see as a number. `L` names whose counter it is. Counting
/// costs nothing when the program runs.
#[derive(Drop)]
pub struct Steps<L: Ledger> {
    // A counter takes memory, so that a lookup, which takes none, cannot make one of its own.
    room: Box<u8>,
    book: Book<L>,
    share: Share<L>,
}

impl<L: Ledger> Model for Steps<L> {
    ghost use Rattle.std.specs.Prelude.{ℕ, ◌<◌};

    ghost Value = { ℕ };

    ghost view = { λ s. s.book.total };

    ghost invariant = { λ s. 0 < s.share.parts };
}

impl<L: Ledger> Steps<L> {
    /// A counter that stands at 0, of the ledger that the blank is for.
    pub fn new(alloc: Global, blank: Blank) -> Result<Steps<L>, OutOfMemory>
        requires name { blank.name ≡ L.name }
        requires parts { blank.parts ≡ L.parts }
        requires some { 0 < blank.parts }
        ensures { IfOk result (λ steps. steps ≡ 0) }
    {
        let room = Box::new(alloc, 0u8)?;
        let (book, share) = blank.open::<L>();
        Ok(Steps { room, book, share })
    }

    /// Counts one read.
    pub(crate) fn tick(&mut self)
        ensures { self.new ≡ self.old + 1 }
    {
        self.book.add(&mut self.share, 1);
    }
}
