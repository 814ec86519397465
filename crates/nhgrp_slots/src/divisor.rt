ghost use Rattle.std.specs.Prelude.{◌≡◌, ◌<◌};
ghost use Rattle.std.specs.Int.{IsGcd};
ghost use Rattle.nhgrp_slots.specs.Slots.{HaveWeights, gcd_of, weights};

use prefix_width::Path;

/// The greatest common divisor of two numbers, by Euclid's algorithm.
fn gcd(a: u32, b: u32) -> u32
    ensures { IsGcd a b result }
{
    let (mut x, mut y) = (a, b);
    while y != 0 {
        (x, y) = (y, x % y);
    }
    x
}

/// The greatest common divisor of the weights. There is one path at least, and each weight is one
/// that its path may have.
pub fn common_divisor<const W: u32>(paths: &[Path<W>]) -> u32
    requires { HaveWeights paths.now }
    ensures value { result ≡ gcd_of (weights paths.now) }
    ensures some { 0 < result }
{
    let mut divisor = 0;
    for path in paths {
        divisor = gcd(divisor, path.weight());
    }
    divisor
}
