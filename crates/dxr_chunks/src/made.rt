ghost use Rattle.std.specs.Prelude.{◌≡◌};
ghost use Rattle.dxr_chunks.specs.Chunk.{runs_of};

use module_trait::SharedCells;

/// A run of fragments, which tables share: each is a start inside the chunk, with the index from
/// there on.
pub(crate) type Run = SharedCells<(u16, u16)>;

/// What a chunk is made to have.
#[derive(Drop)]
pub(crate) enum Made {
    /// One index at each of its addresses.
    Index(u16),
    /// Two or more fragments.
    Fragments(Run),
}

impl Made {
    /// How many runs it is.
    pub(crate) fn runs(&self) -> usize
        ensures { result ≡ runs_of self.now }
    {
        match self {
            Made::Index(_) => 0,
            Made::Fragments(_) => 1,
        }
    }
}
