//! Worked runs of the plain table.
use crate::{Event, Pairs, Phase, PlainSpot, PlainWorld};
use std::test::Fail;

#[test]
fn a_standing_reader_holds_the_fourth_version_up(rt: HostRuntime) -> Result<(), Fail> {
    let mut world = PlainWorld::opening(rt.alloc(), 1)?;
    let holding = Phase::Holding {
        announced: 0,
        version: 0,
    };
    // The step, whether it can be made, and then the published version, and the reader's
    // announcement, phase, and whether it is passed.
    let rows = [
        (Event::Announce(1), false, 0, 0, Phase::Idle, false),
        (Event::Enter(0), false, 0, 0, Phase::Idle, false),
        (
            Event::Publish(Pairs::new(Vec::new(rt.alloc()))),
            false,
            0,
            0,
            Phase::Idle,
            false,
        ),
        (Event::Look(0), true, 0, 0, Phase::Idle, false),
        (Event::Announce(0), true, 0, 1, Phase::Standing(0), false),
        (Event::Enter(0), true, 0, 1, holding, false),
        (Event::Look(0), false, 0, 1, holding, false),
        // At 0, 1 and 2 the reader passes: 1 is above -2, -1 and 0.
        (Event::Scan(0), true, 0, 1, holding, true),
        (Event::Scan(0), false, 0, 1, holding, true),
        (
            Event::Publish(Pairs::new(Vec::new(rt.alloc()))),
            true,
            1,
            1,
            holding,
            false,
        ),
        (Event::Scan(0), true, 1, 1, holding, true),
        (
            Event::Publish(Pairs::new(Vec::new(rt.alloc()))),
            true,
            2,
            1,
            holding,
            false,
        ),
        (Event::Scan(0), true, 2, 1, holding, true),
        (
            Event::Publish(Pairs::new(Vec::new(rt.alloc()))),
            true,
            3,
            1,
            holding,
            false,
        ),
        // At 3 it does not: 1 is not above 1.
        (Event::Scan(0), true, 3, 1, holding, false),
        (
            Event::Publish(Pairs::new(Vec::new(rt.alloc()))),
            false,
            3,
            1,
            holding,
            false,
        ),
        (Event::Leave(0), true, 3, 0, Phase::Idle, false),
        (Event::Leave(0), false, 3, 0, Phase::Idle, false),
        (Event::Scan(0), true, 3, 0, Phase::Idle, true),
        (
            Event::Publish(Pairs::new(Vec::new(rt.alloc()))),
            true,
            4,
            0,
            Phase::Idle,
            false,
        ),
    ];
    for (event, can, cur, ann, phase, passed) in rows {
        assert_eq!(rt; world.can(&event), can, "before {event:?}");
        assert!(rt; world.has_room());
        world.step(&event)?;
        assert_eq!(rt; world.cur, cur, "after {event:?}");
        let Some(reader) = world.readers.first() else {
            panic!(rt; "no reader");
        };
        assert_eq!(rt; reader.ann, ann, "after {event:?}");
        assert_eq!(rt; reader.own.phase, phase, "after {event:?}");
        assert_eq!(rt; reader.passed, passed, "after {event:?}");
    }
    assert_eq!(rt; world.scans, 5);
    assert_eq!(rt; world.found, (0, 0));
    Ok(())
}

#[test]
fn places_move_and_are_given_back(rt: HostRuntime) -> Result<(), Fail> {
    use PlainSpot::{Control, Home, Reader};

    let mut world = PlainWorld::opening(rt.alloc(), 1)?;
    // The step, and then where the reader's four places are, and the versions that they hold.
    let first = [Some(0), None, None, None];
    let second = [Some(0), Some(1), None, None];
    let rows = [
        (Event::Look(0), [Home; 4], first),
        (Event::Announce(0), [Home; 4], first),
        (Event::Enter(0), [Reader, Home, Home, Home], first),
        (Event::Scan(0), [Reader, Control, Home, Home], first),
        (
            Event::Publish(Pairs::new(Vec::new(rt.alloc()))),
            [Reader, Home, Home, Home],
            second,
        ),
        (Event::Scan(0), [Reader, Home, Control, Home], second),
        (Event::Leave(0), [Home, Home, Control, Home], second),
    ];
    for (event, spots, held) in rows {
        assert!(rt; world.has_room());
        world.step(&event)?;
        let Some(reader) = world.readers.first() else {
            panic!(rt; "no reader");
        };
        assert_eq!(rt; reader.spots, spots, "after {event:?}");
        assert_eq!(rt; reader.held, held, "after {event:?}");
    }
    Ok(())
}

#[test]
fn a_note_is_taken_once(rt: HostRuntime) -> Result<(), Fail> {
    let mut world = PlainWorld::opening(rt.alloc(), 2)?;
    let join = |reader, note| Event::Join { reader, note };
    // The step, whether it can be made, and then what the second reader has seen.
    let rows = [
        (Event::Scan(0), true, 0),
        (Event::Publish(Pairs::new(Vec::new(rt.alloc()))), false, 0),
        (Event::Scan(1), true, 0),
        (Event::Publish(Pairs::new(Vec::new(rt.alloc()))), true, 0),
        (join(1, 0), false, 0),
        (Event::Split, true, 0),
        (join(2, 0), false, 0),
        (join(1, 1), false, 0),
        (join(1, 0), true, 1),
        (join(1, 0), false, 1),
    ];
    for (event, can, seen) in rows {
        assert_eq!(rt; world.can(&event), can, "before {event:?}");
        assert!(rt; world.has_room());
        world.step(&event)?;
        let Some(reader) = world.readers.get(1) else {
            panic!(rt; "no reader");
        };
        assert_eq!(rt; reader.own.seen, seen, "after {event:?}");
    }
    Ok(())
}
