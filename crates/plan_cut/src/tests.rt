//! Cuts of worked bursts.
ghost use Rattle.std.specs.Prelude.{◌+◌, ◌*◌, ◌<◌, ◌≤◌};

use crate::{Cut, Cutter, accepted};
use prefix_width::Setting;
use rib_store::{Command, Refusal, Reply};
use std::process::Abort;

#[test]
fn replies_to_accepted_changes(rt: HostRuntime) {
    for (reply, want) in [
        (Reply::Added, true),
        (Reply::Joined, true),
        (Reply::Changed, true),
        (Reply::Deleted, true),
        (Reply::Flushed(1), true),
        (Reply::Flushed(0), false),
        (Reply::Nothing, false),
        (Reply::Refused(Refusal::NotFound), false),
    ] {
        assert_eq!(rt; accepted(&reply), want);
    }
}

/// A command, whether it was an accepted change, and whether the chosen module differs.
type Step = (Command<32>, bool, bool);

const CHANGE: Step = (Command::Flush, true, false);

const REFUSED: Step = (Command::Flush, false, false);

const SYNC: Step = (Command::Sync, false, false);

const SAME_MODULE: Step = (
    Command::Algo {
        setting: Setting::Auto,
    },
    false,
    false,
);

const OTHER_MODULE: Step = (
    Command::Algo {
        setting: Setting::Auto,
    },
    false,
    true,
);

const fn tick(ms: u32) -> Step {
    (Command::Tick { ms }, false, false)
}

// So many steps answer alike.
fn repeat(rt: &impl Abort, cutter: &mut Cutter, times: u32, step: Step, want: Cut)
    requires times { times ≤ 300 }
    requires moment { cutter.old.moment ≤ 6000 * 4294967296 }
    requires count { cutter.old.count ≤ 6000 }
    requires pending { cutter.old.pending ≤ 6000 }
    ensures moment { cutter.new.moment ≤ cutter.old.moment + 300 * 4294967296 }
    ensures count { cutter.new.count ≤ cutter.old.count + 300 }
    ensures pending { cutter.new.pending ≤ cutter.old.pending + 300 }
{
    let mut n = 0;
    while n < times {
        n += 1;
        assert_eq!(rt;
            cutter.step(step.1, &step.0, step.2),
            want,
            "step {n} of {times}"
        );
    }
}

// Changes at one moment: 25 are published one by one, those after them 256 at a time.
#[test]
fn changes_at_one_moment(rt: HostRuntime) {
    let mut cutter = Cutter::new();
    repeat(&rt, &mut cutter, 25, CHANGE, Cut::Now);
    repeat(&rt, &mut cutter, 255, CHANGE, Cut::Stay);
    repeat(&rt, &mut cutter, 1, CHANGE, Cut::Now);
    repeat(&rt, &mut cutter, 255, CHANGE, Cut::Stay);
    repeat(&rt, &mut cutter, 1, CHANGE, Cut::Now);
    repeat(&rt, &mut cutter, 255, CHANGE, Cut::Stay);
    repeat(&rt, &mut cutter, 1, CHANGE, Cut::Now);
    repeat(&rt, &mut cutter, 255, CHANGE, Cut::Stay);
    repeat(&rt, &mut cutter, 1, CHANGE, Cut::Now);
    repeat(&rt, &mut cutter, 51, CHANGE, Cut::Stay);
    assert_eq!(rt; cutter.finish(), Cut::Now);
    assert_eq!(rt; cutter.finish(), Cut::Stay);
}

#[test]
fn a_tick_ends_a_bucket(rt: HostRuntime) {
    let mut cutter = Cutter::new();
    repeat(&rt, &mut cutter, 3, tick(60_000), Cut::Stay);
    repeat(&rt, &mut cutter, 25, CHANGE, Cut::Now);
    repeat(&rt, &mut cutter, 2, CHANGE, Cut::Stay);
    repeat(&rt, &mut cutter, 49, tick(1), Cut::Stay);
    repeat(&rt, &mut cutter, 1, tick(1), Cut::Now);
    repeat(&rt, &mut cutter, 1, tick(1), Cut::Stay);
    repeat(&rt, &mut cutter, 25, CHANGE, Cut::Now);
    repeat(&rt, &mut cutter, 1, tick(49), Cut::Stay);
    repeat(&rt, &mut cutter, 1, CHANGE, Cut::Stay);
    repeat(&rt, &mut cutter, 1, tick(1), Cut::Now);
    repeat(&rt, &mut cutter, 25, CHANGE, Cut::Now);
    assert_eq!(rt; cutter.finish(), Cut::Stay);
}

#[test]
fn what_publishes_pending_changes(rt: HostRuntime) {
    let mut cutter = Cutter::new();
    repeat(&rt, &mut cutter, 2, SYNC, Cut::Stay);
    repeat(&rt, &mut cutter, 2, SAME_MODULE, Cut::Stay);
    repeat(&rt, &mut cutter, 2, OTHER_MODULE, Cut::Now);
    repeat(&rt, &mut cutter, 2, REFUSED, Cut::Stay);
    repeat(&rt, &mut cutter, 25, CHANGE, Cut::Now);
    repeat(&rt, &mut cutter, 9, CHANGE, Cut::Stay);
    repeat(&rt, &mut cutter, 1, SYNC, Cut::Now);
    repeat(&rt, &mut cutter, 1, SYNC, Cut::Stay);
    repeat(&rt, &mut cutter, 9, CHANGE, Cut::Stay);
    repeat(&rt, &mut cutter, 1, SAME_MODULE, Cut::Now);
    repeat(&rt, &mut cutter, 1, SAME_MODULE, Cut::Stay);
}
