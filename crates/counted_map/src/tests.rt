use crate::{CountedMap, law_counts_decide, law_link_raises, law_unlink_lowers};
use std::test::Fail;

#[test]
fn uses_are_counted_up_and_down(rt: HostRuntime) -> Result<(), Fail> {
    let mut map = CountedMap::<u32>::new(rt.alloc());
    assert!(rt; !map.increase(&7));
    map.insert(7)?;
    map.insert(3)?;
    assert!(rt; map.increase(&7));
    assert_eq!(rt; (map.count(&3), map.count(&7), map.live()), (1, 2, 2));
    map.decrease(&7);
    map.decrease(&3);
    assert_eq!(rt; (map.count(&3), map.count(&7), map.live()), (0, 1, 1));
    Ok(())
}

#[test]
fn keys_are_listed_in_their_order(rt: HostRuntime) -> Result<(), Fail> {
    let mut map = CountedMap::<u32>::new(rt.alloc());
    for key in [5, 1, 4] {
        if map.count(&key) == 0 && map.live() < 9 {
            map.insert(key)?;
        }
    }
    let mut listed = Vec::new(rt.alloc());
    for (key, count) in map.iter() {
        listed.push((*key, *count))?;
    }
    assert_eq!(rt; listed.as_slice(), [(1, 1), (4, 1), (5, 1)].as_slice());
    Ok(())
}

#[test]
fn the_laws_hold_at_numbers() {
    law_link_raises::<u32>();
    law_unlink_lowers::<u32>();
    law_counts_decide::<u32>();
}
