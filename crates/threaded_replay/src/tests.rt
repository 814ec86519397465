//! Worked scripts by workers.
ghost use Rattle.std.specs.Prelude.{◌<◌, ◌≤◌, ◌^◌};

use crate::{Got, answer_gets, fibs};
use fib_pass::Pass;
use prefix_width::{Addr, Nexthop};
use replay_run::{BANKS, OpenGate, TARGETS_MAX};
use route_lang::read_script;
use std::process::Abort;
use std::test::Fail;

const SCRIPT: &str = "\
add 10.0.0.0/8 192.0.2.1
add 10.1.0.0/16 192.0.2.2
add -inet6 2001:db8::/32 2001:db8::1
sync
get 10.1.0.1
get -inet6 2001:db8::5
get 11.0.0.1
get 10.2.0.1
change 10.1.0.0/16 192.0.2.3
add -inet6 2001:db8:1::/48 2001:db8::2
sync
get 10.1.0.1
get -inet6 2001:db8:1::5
get -inet6 2001:db9::1
get 10.2.0.1
";

/// 192.0.2.0 and 2001:db8::.
const NET: u128 = 0xc000_0200;

const NET6: u128 = 0x2001_0db8_0000_0000_0000_0000_0000_0000;

/// What each get may be answered: whether it is of IPv6; the oldest and the newest version, which is
/// one more at most; and the last byte of the gateway at each of them, 0 for none.
const WANTED: [(bool, [u64; 2], [u8; 2]); 8] = [
    (false, [2, 3], [2, 3]),
    (true, [1, 2], [1, 1]),
    (false, [2, 3], [0, 0]),
    (false, [2, 3], [1, 1]),
    (false, [3, 3], [3, 3]),
    (true, [2, 2], [2, 2]),
    (true, [2, 2], [0, 0]),
    (false, [3, 3], [1, 1]),
];

/// The nexthop by the network's host of this last byte, none for 0.
fn via<const W: u32>(net: u128, host: u8) -> Option<Nexthop<W>>
    requires width { (1 ≤ W) × (W ≤ 128) }
    requires net { net < 2 ^ 127 }
{
    if host == 0 {
        return None;
    }
    let gateway = Addr::new(net + u128::from(host))?;
    Some(Nexthop::via(gateway, 0, 0))
}

/// A get is answered as one of its versions says.
fn check(rt: &impl Abort, got: &Got, is_inet6: bool, versions: [u64; 2], hosts: [u8; 2]) {
    let [oldest, newest] = versions;
    assert!(rt; oldest <= got.version);
    assert!(rt; got.version <= newest);
    let host = if got.version == oldest {
        hosts[0]
    } else {
        hosts[1]
    };
    if is_inet6 {
        assert_eq!(rt; got.inet, None);
        assert_eq!(rt; got.inet6, via::<128>(NET6, host));
    } else {
        assert_eq!(rt; got.inet, via::<32>(NET, host));
        assert_eq!(rt; got.inet6, None);
    }
}

/// How many lookups each pass made.
fn check_lookups<const W: u32>(
    rt: &impl Abort,
    passes: &[Pass<W, BANKS, TARGETS_MAX>],
    lookups: &[u32],
) {
    assert_eq!(rt; passes.len(), lookups.len());
    for (pass, made) in passes.iter().zip(lookups) {
        assert_eq!(rt; pass.lookups(), *made);
    }
}

#[test]
fn workers_share_the_gets(rt: HostRuntime) -> Result<(), Fail> {
    let alloc = rt.alloc();
    let script = read_script(alloc, SCRIPT.as_bytes())?;
    for (workers, lookups, lookups6) in [(2, [3, 2, 0], [1, 2, 0]), (3, [2, 2, 1], [1, 1, 1])] {
        let fibs = fibs(alloc, &script, workers)?;
        let ran = answer_gets(&rt, alloc, &script, fibs, &OpenGate)?;
        assert_eq!(rt; ran.gots.len(), WANTED.len());
        for (got, (is_inet6, versions, hosts)) in ran.gots.iter().zip(WANTED) {
            check(&rt, got, is_inet6, versions, hosts);
        }
        check_lookups(&rt, &ran.fibs.inet.passes, &lookups[..usize::from(workers)]);
        check_lookups(
            &rt,
            &ran.fibs.inet6.passes,
            &lookups6[..usize::from(workers)],
        );
        assert_eq!(rt; ran.fibs.inet.publisher.version(), 3);
        assert_eq!(rt; ran.fibs.inet6.publisher.version(), 2);
    }
    Ok(())
}
