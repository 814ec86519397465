ghost use Rattle.std.specs.Prelude.{ℕ, List, Option, ◌<◌, ◌≤◌, length};
ghost use Rattle.outside_io.specs.Outside.{Writes};

/// What one write took.
#[derive(Clone, Copy, Debug, PartialEq, Eq)]
pub enum Put {
    /// So many bytes, at least one, from the front of the piece.
    Took(usize),
    /// The write failed, and took nothing.
    Failed,
}

/// Where bytes go.
pub trait Sink {
    /// The bytes that were written, where the sink tells them.
    ghost written: { Self → Option (List ℕ) };

    /// How often it has failed. It never falls. A sink that takes nothing counts a fault.
    ghost faults: { Self → ℕ };

    /// Writes a front of the piece.
    fn write(&mut self, piece: &[u8]) -> Put
        requires { 0 < length piece.now }
        ensures writes { Writes (written self.old) (written self.new) (faults self.old) (faults self.new) piece.now result }
        ensures later { faults self.old ≤ faults self.new };
}
