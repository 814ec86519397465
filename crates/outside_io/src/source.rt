ghost use Rattle.std.specs.Prelude.{ℕ, List, Option, ◌<◌, ◌≤◌, length};
ghost use Rattle.outside_io.specs.Outside.{Reads};

/// What one read gave.
#[derive(Clone, Copy, Debug, PartialEq, Eq)]
pub enum Taken {
    /// So many bytes, at least one, at the front of the buffer.
    Some(usize),
    /// No byte is left.
    End,
    /// The read failed, and took nothing.
    Failed,
}

/// Where bytes come from.
pub trait Source {
    /// The bytes that are left, where the source tells them.
    ghost left: { Self → Option (List ℕ) };

    /// How often it has failed. It never falls.
    ghost faults: { Self → ℕ };

    /// Takes the next bytes, at most as many as the buffer has room for.
    fn read(&mut self, buf: &mut [u8]) -> Taken
        requires { 0 < length buf.old }
        ensures reads { Reads (left self.old) (left self.new) (faults self.old) (faults self.new) buf.new result }
        ensures later { faults self.old ≤ faults self.new };
}
