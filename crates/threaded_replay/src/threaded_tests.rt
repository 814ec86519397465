//! Workers run beside each other.
use crate::threaded;
use replay_run::{Gate, OpenGate};
use route_lang::read_script;
use std::sync::atomic::{AtomicU64, Ordering};
use std::test::Fail;
use std::thread;

const SCRIPT: &str = "\
add 10.0.0.0/8 192.0.2.1
add 10.1.0.0/16 192.0.2.2
sync
get 10.1.0.1
get 10.2.0.1
get 11.0.0.1
get 10.1.0.2
get 10.0.0.0
get 10.255.255.255
";

const OUTPUT: &str = "\
1 added
2 added
4 10.1.0.1 version 2 via 192.0.2.2 if 0 mtu 0
5 10.2.0.1 version 2 via 192.0.2.1 if 0 mtu 0
6 11.0.0.1 version 2 none
7 10.1.0.2 version 2 via 192.0.2.2 if 0 mtu 0
8 10.0.0.0 version 2 via 192.0.2.1 if 0 mtu 0
9 10.255.255.255 version 2 via 192.0.2.1 if 0 mtu 0
packets inet 3 via 192.0.2.1 if 0 mtu 0
packets inet 2 via 192.0.2.2 if 0 mtu 0
fib inet version 2 routes 2 algo range
fib inet6 version 0 routes 0 algo range
";

#[test]
fn two_workers_share_the_gets(rt: HostRuntime) -> Result<(), Fail> {
    let alloc = rt.alloc();
    let script = read_script(alloc, SCRIPT.as_bytes())?;
    let (text, totals) = threaded(&rt, alloc, &script, 2, &OpenGate)?;
    assert_eq!(rt; text.as_slice(), OUTPUT.as_bytes());
    assert_eq!(rt; totals.inet.version(), 2);
    assert_eq!(rt; totals.inet.lookups(), 6);
    assert_eq!(rt; totals.inet.passes().len(), 2);
    for end in totals.inet.passes() {
        assert_eq!(rt; end.lookups, 3);
        assert_eq!(rt; end.seen, 2);
    }
    assert_eq!(rt; totals.inet6.version(), 0);
    assert_eq!(rt; totals.inet6.lookups(), 0);
    Ok(())
}

/// How many turns get 0 is held for at most.
const TURNS_MAX: u32 = 20_000_000;

/// Holds get 0 until get 1 is answered.
#[derive(Drop)]
struct HoldFirst {
    answered: AtomicU64,
    gave_up: AtomicU64,
}

impl Gate for HoldFirst {
    fn before(&self, j: u32) {
        if j != 0 {
            return;
        }
        for _turn in 0..TURNS_MAX {
            if self.answered.load(Ordering::SeqCst) != 0 {
                return;
            }
            thread::yield_now();
        }
        self.gave_up.store(1, Ordering::SeqCst);
    }

    fn after(&self, j: u32) {
        if j == 1 {
            self.answered.store(1, Ordering::SeqCst);
        }
    }
}

#[test]
fn workers_run_beside_each_other(rt: HostRuntime) -> Result<(), Fail> {
    let alloc = rt.alloc();
    let script = read_script(alloc, SCRIPT.as_bytes())?;
    let gate = HoldFirst {
        answered: AtomicU64::new(0),
        gave_up: AtomicU64::new(0),
    };
    let (text, _totals) = threaded(&rt, alloc, &script, 2, &gate)?;
    assert_eq!(rt; text.as_slice(), OUTPUT.as_bytes());
    assert_eq!(rt; gate.gave_up.load(Ordering::SeqCst), 0);
    Ok(())
}
