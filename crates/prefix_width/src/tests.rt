use crate::last_index;

// By hand: so many banks times one more than the targets, less one.
#[test]
fn the_greatest_index_at_the_ends_of_both_ranges(rt: HostRuntime) {
    for (banks, targets, greatest) in [
        (2, 1, 3),
        (2, 4095, 8_191),
        (4, 2047, 8_191),
        (8, 1, 15),
        (8, 4095, 32_767),
    ] {
        assert_eq!(rt; last_index(banks, targets), greatest);
    }
}
