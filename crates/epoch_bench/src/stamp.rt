use epoch_core::{ControlSeat, Lawful, ReaderSeat};

/// A number that is lawful for the version that it is. No version names an index.
#[derive(Drop)]
pub(crate) struct Stamp(pub(crate) u64);

impl Lawful<()> for Stamp {
    ghost use Rattle.std.specs.Prelude.{◌≡◌};
    ghost use Rattle.epoch_bench.specs.Names.{no_names};

    ghost is_lawful = { λ _ version stamp. version ≡ stamp.0 };

    ghost names = { λ _ version. no_names version };
}

/// The seat that places stamps.
pub(crate) type Control = ControlSeat<(), Stamp, 8, 4095>;

/// A seat that reads stamps.
pub(crate) type Reader = ReaderSeat<(), Stamp, 8, 4095>;
