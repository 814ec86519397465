//! Worked scripts with their outputs.
use crate::output::{write_fib, write_reply};
use crate::{check_text, gen_text, serial, show_text};
use prefix_width::Kind;
use rib_store::{Refusal, Reply};
use route_lang::read_script;
use std::test::Fail;

// A module that differs from the current one is a version of its own.
const SCRIPT: &str = "\
# one route, changed
add 10.0.0.0/8 192.0.2.1 -weight 1 -mtu 1500
add -inet6 default -if 3
get 10.1.2.3 flow 9
algo radix
get -inet6 ::1
";

const OUTPUT: &str = "\
2 added
3 added
4 10.1.2.3 version 1 via 192.0.2.1 if 0 mtu 1500
6 ::1 version 1 direct if 3 mtu 0
packets inet 1 via 192.0.2.1 if 0 mtu 1500
packets inet6 1 direct if 3 mtu 0
fib inet version 2 routes 1 algo radix
fib inet6 version 1 routes 1 algo range
";

const SHOWN: &str = "\
add -inet 10.0.0.0/8 192.0.2.1 -mtu 1500
add -inet6 ::/0 -if 3
get -inet 10.1.2.3 flow 9
algo -inet radix
get -inet6 ::1
";

#[test]
fn a_script_is_replayed_checked_and_shown(rt: HostRuntime) -> Result<(), Fail> {
    let alloc = rt.alloc();
    let script = read_script(alloc, SCRIPT.as_bytes())?;
    assert_eq!(rt; serial(alloc, &script)?.as_slice(), OUTPUT.as_bytes());
    assert_eq!(rt;
        check_text(alloc, &script, 6)?.as_slice(),
        b"ok 6 lines 5 commands\n".as_slice()
    );
    assert_eq!(rt; show_text(alloc, &script)?.as_slice(), SHOWN.as_bytes());
    Ok(())
}

#[test]
fn replies_and_modules_are_spelled_as_written_here(rt: HostRuntime) -> Result<(), Fail> {
    for (reply, text) in [
        (Reply::Added, "7 added\n"),
        (Reply::Joined, "7 joined\n"),
        (Reply::Changed, "7 changed\n"),
        (Reply::Deleted, "7 deleted\n"),
        (Reply::Flushed(12), "7 flushed 12\n"),
        (Reply::Nothing, ""),
        (Reply::Refused(Refusal::Exists), "7 refused exists\n"),
        (Reply::Refused(Refusal::NotFound), "7 refused not found\n"),
        (Reply::Refused(Refusal::PathsFull), "7 refused paths full\n"),
        (Reply::Refused(Refusal::TableFull), "7 refused table full\n"),
        (
            Reply::Refused(Refusal::TargetsFull),
            "7 refused targets full\n",
        ),
    ] {
        let mut out = Vec::new(rt.alloc());
        write_reply(7, reply, &mut out)?;
        assert_eq!(rt; out.as_slice(), text.as_bytes());
    }
    for (kind, text) in [
        (Kind::Scan, "fib inet version 1 routes 2 algo scan\n"),
        (Kind::Range, "fib inet version 1 routes 2 algo range\n"),
        (Kind::Radix, "fib inet version 1 routes 2 algo radix\n"),
        (Kind::Dxr, "fib inet version 1 routes 2 algo dxr\n"),
    ] {
        let mut out = Vec::new(rt.alloc());
        write_fib::<32>(1, 2, kind, &mut out)?;
        assert_eq!(rt; out.as_slice(), text.as_bytes());
    }
    Ok(())
}

// The numbers are those of a plain program of its own, bench/gen.
#[test]
fn generated_scripts_come_to_these_numbers(rt: HostRuntime) -> Result<(), Fail> {
    let alloc = rt.alloc();
    assert_eq!(rt;
        gen_text(alloc, 0, 1)?.as_slice(),
        b"\
gen seed 0 count 1
changes 0 refused 0
gets 1 answered 0
fib inet version 0 routes 0 algo range
fib inet6 version 0 routes 0 algo range
"
            .as_slice()
    );
    assert_eq!(rt;
        gen_text(alloc, 1, 1_000)?.as_slice(),
        b"\
gen seed 1 count 1000
changes 519 refused 112
gets 302 answered 267
fib inet version 311 routes 410 algo radix
fib inet6 version 0 routes 0 algo range
"
            .as_slice()
    );
    assert_eq!(rt;
        gen_text(alloc, 7, 20_000)?.as_slice(),
        b"\
gen seed 7 count 20000
changes 9658 refused 2883
gets 6218 answered 6178
fib inet version 5942 routes 3272 algo dxr
fib inet6 version 0 routes 0 algo range
"
            .as_slice()
    );
    Ok(())
}
