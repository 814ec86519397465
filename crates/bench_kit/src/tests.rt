//! Draws, numbers and quotients, reckoned by another program.
use crate::{Draws, number_in, per_second, tenths};

#[test]
fn the_first_draws_of_seed_1(rt: HostRuntime) {
    let mut draws = Draws::new(1);
    for number in [1_817_669_548, 2_187_888_307, 2_784_682_393, 1_644_385_741] {
        assert_eq!(rt; draws.draw(), number);
    }
}

#[test]
fn numbers_from_1_to_the_most(rt: HostRuntime) {
    for (text, number) in [
        ("1", Some(1)),
        ("+70", Some(70)),
        ("0100", Some(100)),
        ("101", None),
        ("0", None),
        ("-1", None),
        ("", None),
        ("1x", None),
    ] {
        assert_eq!(rt; number_in(text, 100), number);
    }
}

#[test]
fn quotients_are_cut_off(rt: HostRuntime) {
    for (dividend, divisor, whole, tenth) in [
        (7, 2, 3, 5),
        (1_999, 1_000, 1, 9),
        (5, 0, 5, 0),
        (0, 3, 0, 0),
    ] {
        assert_eq!(rt; tenths(dividend, divisor), (whole, tenth));
    }
}

#[test]
fn rates_are_cut_off(rt: HostRuntime) {
    for (count, nanos, rate) in [
        (3, 2_000_000_000, 1),
        (1_000, 1_000_000, 1_000_000),
        (2, 0, 2_000_000_000),
        (0, 5, 0),
    ] {
        assert_eq!(rt; per_second(count, nanos), rate);
    }
}
