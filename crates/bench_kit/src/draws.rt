//! The generator of what is drawn.
ghost use Rattle.std.specs.Prelude.{◌≡◌, ◌/◌, ◌^◌};
ghost use Rattle.bench_kit.specs.Draws.{next_state};

/// A linear congruential generator of 64 bits, of which a draw gives the upper half. Its numbers
/// are Knuth's for MMIX.
#[derive(Drop)]
pub struct Draws {
    pub state: u64,
}

impl Draws {
    /// The generator that begins at a seed.
    pub fn new(seed: u64) -> Draws
        ensures { result.state ≡ seed }
    {
        Draws { state: seed }
    }

    /// The next number.
    pub fn draw(&mut self) -> u32
        ensures state { self.new.state ≡ next_state self.old.state }
        ensures value { result ≡ self.new.state / 2 ^ 32 }
    {
        self.state = self
            .state
            .wrapping_mul(6_364_136_223_846_793_005)
            .wrapping_add(1_442_695_040_888_963_407);
        (self.state >> 32) as u32
    }
}
