//! Worked scripts through the top call.
use crate::{Job, Status, fault_text, plain, run};
use outside_io::{MemSink, MemSource};
use replay_run::OpenGate;
use route_lang::Reason;
use std::alloc::Global;
use std::test::Fail;

const USUAL_TABLE: &str = "\
add default 192.0.2.1
add -net 198.51.100.0/24 192.0.2.2
add -net 10.1.0.0/16 192.0.2.3 -mtu 1400
add -host 198.51.100.7 192.0.2.4 -if 3
get 198.51.100.7
get 198.51.100.8
get 10.1.255.255
get 10.2.0.0
";

const USUAL_TABLE_OUTPUT: &str = "\
1 added
2 added
3 added
4 added
5 198.51.100.7 version 4 via 192.0.2.4 if 3 mtu 0
6 198.51.100.8 version 4 via 192.0.2.2 if 0 mtu 0
7 10.1.255.255 version 4 via 192.0.2.3 if 0 mtu 1400
8 10.2.0.0 version 4 via 192.0.2.1 if 0 mtu 0
packets inet 1 via 192.0.2.1 if 0 mtu 0
packets inet 1 via 192.0.2.2 if 0 mtu 0
packets inet 1 via 192.0.2.3 if 0 mtu 1400
packets inet 1 via 192.0.2.4 if 3 mtu 0
fib inet version 4 routes 4 algo range
fib inet6 version 0 routes 0 algo range
";

// Both families, with the words that route(8) takes before its commands.
const EDGE_ROUTER: &str = "\
# edge router
route -q add default 203.0.113.1
route add -net 192.0.2.0/24 -if 1
route add -net 198.51.100.0/24 192.0.2.10 -weight 1
route add -net 198.51.100.0/24 192.0.2.11 -weight 1
route add -net 10.0.0.0/8 127.0.0.1 -blackhole
route add -inet6 default fe80::1 -if 2
route add -inet6 2001:db8::/32 ::1 -reject
route get 198.51.100.20 flow 7
route get 10.9.8.7
route get -inet6 2001:db8::5
route get -inet6 2001:db9::1
";

const EDGE_ROUTER_OUTPUT: &str = "\
2 added
3 added
4 added
5 joined
6 added
7 added
8 added
9 198.51.100.20 version 5 via 192.0.2.11 if 0 mtu 0
10 10.9.8.7 version 5 blackhole
11 2001:db8::5 version 2 reject
12 2001:db9::1 version 2 via fe80::1 if 2 mtu 0
packets inet 1 via 192.0.2.11 if 0 mtu 0
packets inet 1 blackhole
packets inet6 1 via fe80::1 if 2 mtu 0
packets inet6 1 reject
fib inet version 5 routes 4 algo range
fib inet6 version 2 routes 2 algo range
";

// A get sees the versions before it, and no later one.
const FIVE_CHANGES: &str = "\
add 10.0.0.0/8 192.0.2.1
get 10.0.0.1
change 10.0.0.0/8 192.0.2.2
get 10.0.0.1
change 10.0.0.0/8 192.0.2.3
get 10.0.0.1
change 10.0.0.0/8 192.0.2.4
get 10.0.0.1
change 10.0.0.0/8 192.0.2.5
get 10.0.0.1
";

const FIVE_CHANGES_OUTPUT: &str = "\
1 added
2 10.0.0.1 version 1 via 192.0.2.1 if 0 mtu 0
3 changed
4 10.0.0.1 version 2 via 192.0.2.2 if 0 mtu 0
5 changed
6 10.0.0.1 version 3 via 192.0.2.3 if 0 mtu 0
7 changed
8 10.0.0.1 version 4 via 192.0.2.4 if 0 mtu 0
9 changed
10 10.0.0.1 version 5 via 192.0.2.5 if 0 mtu 0
packets inet 1 via 192.0.2.1 if 0 mtu 0
packets inet 1 via 192.0.2.2 if 0 mtu 0
packets inet 1 via 192.0.2.3 if 0 mtu 0
packets inet 1 via 192.0.2.4 if 0 mtu 0
packets inet 1 via 192.0.2.5 if 0 mtu 0
fib inet version 5 routes 1 algo range
fib inet6 version 0 routes 0 algo range
";

const TWO_FLUSHES: &str = "\
add default -if 1
add 10.0.0.0/8 192.0.2.1
add -inet6 default 2001:db8::1
flush
flush
";

const TWO_FLUSHES_OUTPUT: &str = "\
1 added
2 added
3 added
4 flushed 2
5 flushed 0
fib inet version 3 routes 1 algo range
fib inet6 version 2 routes 0 algo range
";

const WEIGHTED_GROUP: &str = "\
add 10.0.0.0/8 192.0.2.1 -weight 1
add 10.0.0.0/8 192.0.2.2 -weight 3
get 10.0.0.1 flow 0
get 10.0.0.1 flow 1
get 10.0.0.1 flow 2
get 10.0.0.1 flow 3
get 10.0.0.1 flow 4
";

const WEIGHTED_GROUP_OUTPUT: &str = "\
1 added
2 joined
3 10.0.0.1 version 2 via 192.0.2.1 if 0 mtu 0
4 10.0.0.1 version 2 via 192.0.2.2 if 0 mtu 0
5 10.0.0.1 version 2 via 192.0.2.2 if 0 mtu 0
6 10.0.0.1 version 2 via 192.0.2.2 if 0 mtu 0
7 10.0.0.1 version 2 via 192.0.2.1 if 0 mtu 0
packets inet 2 via 192.0.2.1 if 0 mtu 0
packets inet 3 via 192.0.2.2 if 0 mtu 0
fib inet version 2 routes 1 algo range
fib inet6 version 0 routes 0 algo range
";

const NO_ROUTES: &str = "\
fib inet version 0 routes 0 algo range
fib inet6 version 0 routes 0 algo range
";

const NOT_TAKEN: [&str; 5] = ["", "play", "Replay", "replay replay", "replay --workers 65"];

// The first number that is drawn asks for a get over the empty table.
const GENERATED_LINE: &str = "\
gen seed 0 count 1
changes 0 refused 0
gets 1 answered 0
fib inet version 0 routes 0 algo range
fib inet6 version 0 routes 0 algo range
";

fn words(alloc: Global, line: &str) -> Result<Vec<String>, Fail> {
    let mut words = Vec::new(alloc);
    for word in line.split_whitespace() {
        words.push(String::from_str(alloc, word)?)?;
    }
    Ok(words)
}

fn source(alloc: Global, text: &str, fails: &[u32]) -> Result<MemSource, Fail> {
    let bytes = Vec::from_slice(alloc, text.as_bytes())?;
    Ok(MemSource::new(bytes, 40, Vec::from_slice(alloc, fails)?))
}

#[test]
fn scripts_are_replayed(rt: HostRuntime) -> Result<(), Fail> {
    let alloc = rt.alloc();
    let words = words(alloc, "replay --seed 7")?;
    for (script, output) in [
        ("", NO_ROUTES),
        (USUAL_TABLE, USUAL_TABLE_OUTPUT),
        (EDGE_ROUTER, EDGE_ROUTER_OUTPUT),
        (FIVE_CHANGES, FIVE_CHANGES_OUTPUT),
        (TWO_FLUSHES, TWO_FLUSHES_OUTPUT),
        (WEIGHTED_GROUP, WEIGHTED_GROUP_OUTPUT),
    ] {
        let mut source = source(alloc, script, &[])?;
        let mut sink = MemSink::new(alloc, 1000, 10, Vec::new(alloc))?;
        let (ended, totals) = run(&rt, words.as_slice(), &mut source, &mut sink, &OpenGate);
        assert!(rt; totals.is_none());
        assert_eq!(rt; ended, Status::Ok, "of {script}");
        assert_eq!(rt; sink.bytes(), output.as_bytes(), "of {script}");
    }
    Ok(())
}

#[test]
fn scripts_are_checked_shown_and_generated(rt: HostRuntime) -> Result<(), Fail> {
    let alloc = rt.alloc();
    for (line, script, output) in [
        ("check", "", "ok 0 lines 0 commands\n"),
        ("check", EDGE_ROUTER, "ok 12 lines 11 commands\n"),
        ("gen --seed 0 --count 1", "no script", GENERATED_LINE),
        ("show", "", ""),
        (
            "show",
            "route add -net 10.9.0.1/16 192.0.2.1 -weight 1\n",
            "add -inet 10.9.0.0/16 192.0.2.1\n",
        ),
        (
            "show",
            "# an address in full\nget  -inet6 0:0:0:0:0:0:0:1  flow 0",
            "get -inet6 ::1\n",
        ),
    ] {
        let words = words(alloc, line)?;
        let mut source = source(alloc, script, &[])?;
        let mut sink = MemSink::new(alloc, 1000, 10, Vec::new(alloc))?;
        let (ended, totals) = run(&rt, words.as_slice(), &mut source, &mut sink, &OpenGate);
        assert!(rt; totals.is_none());
        assert_eq!(rt; ended, Status::Ok, "of {script}");
        assert_eq!(rt; sink.bytes(), output.as_bytes(), "of {script}");
    }
    Ok(())
}

// All changes come before the sync line and all gets behind it, so the workers answer at the last
// version.
const SYNCED: &str = "\
add 10.0.0.0/8 192.0.2.1
add 10.1.0.0/16 192.0.2.2
add 10.1.0.0/16 192.0.2.3
add -inet6 2001:db8::/32 2001:db8::1
algo radix
sync
get 10.0.0.1
get 10.1.0.1
get -inet6 2001:db8::5
get 11.0.0.1
get 10.1.2.3 flow 1
get -inet6 ::1
get 10.1.2.3 flow 2
";

const SYNCED_OUTPUT: &str = "\
1 added
2 added
3 joined
4 added
7 10.0.0.1 version 4 via 192.0.2.1 if 0 mtu 0
8 10.1.0.1 version 4 via 192.0.2.2 if 0 mtu 0
9 2001:db8::5 version 1 via 2001:db8::1 if 0 mtu 0
10 11.0.0.1 version 4 none
11 10.1.2.3 version 4 via 192.0.2.3 if 0 mtu 0
12 ::1 version 1 none
13 10.1.2.3 version 4 via 192.0.2.2 if 0 mtu 0
packets inet 1 via 192.0.2.1 if 0 mtu 0
packets inet 2 via 192.0.2.2 if 0 mtu 0
packets inet 1 via 192.0.2.3 if 0 mtu 0
packets inet6 1 via 2001:db8::1 if 0 mtu 0
fib inet version 4 routes 2 algo radix
fib inet6 version 1 routes 1 algo range
";

#[test]
fn workers_answer_as_one_thread_does(rt: HostRuntime) -> Result<(), Fail> {
    let alloc = rt.alloc();
    for (line, is_told) in [
        ("replay", false),
        ("replay --workers 1", true),
        ("replay --workers 2", true),
        ("--workers 3 replay", true),
        ("replay --workers=17", true),
        ("replay --workers 64", true),
    ] {
        let words = words(alloc, line)?;
        let mut source = source(alloc, SYNCED, &[])?;
        let mut sink = MemSink::new(alloc, 2000, 100, Vec::new(alloc))?;
        let (ended, totals) = run(&rt, words.as_slice(), &mut source, &mut sink, &OpenGate);
        assert_eq!(rt; ended, Status::Ok, "of {line}");
        assert_eq!(rt; sink.bytes(), SYNCED_OUTPUT.as_bytes(), "of {line}");
        assert_eq!(rt; totals.is_some(), is_told);
    }
    Ok(())
}

#[test]
fn other_words_are_not_taken(rt: HostRuntime) -> Result<(), Fail> {
    let alloc = rt.alloc();
    for line in NOT_TAKEN {
        let words = words(alloc, line)?;
        let mut source = source(alloc, USUAL_TABLE, &[])?;
        let mut sink = MemSink::new(alloc, 1000, 10, Vec::new(alloc))?;
        let (ended, totals) = run(&rt, words.as_slice(), &mut source, &mut sink, &OpenGate);
        assert_eq!(rt; ended, Status::Usage, "of {line}");
        assert!(rt; totals.is_none());
        assert!(rt; sink.bytes().is_empty());
    }
    Ok(())
}

#[test]
fn a_failing_read_and_a_failing_write_are_told(rt: HostRuntime) -> Result<(), Fail> {
    let alloc = rt.alloc();
    for (reads, writes, status, written) in [
        ([2].as_slice(), [].as_slice(), Status::ReadFault, ""),
        (
            [].as_slice(),
            [3].as_slice(),
            Status::WriteFault,
            "1 added\n2 added\n3 ad",
        ),
    ] {
        let mut source = source(alloc, USUAL_TABLE, reads)?;
        let fails = Vec::from_slice(alloc, writes)?;
        let mut sink = MemSink::new(alloc, 1000, 10, fails)?;
        let ended = plain(alloc, Job::Replay, &mut source, &mut sink);
        assert_eq!(rt; ended, status);
        assert_eq!(rt; sink.bytes(), written.as_bytes());
    }
    Ok(())
}

// One byte past the limit is too much input; up to it, the line is what is refused.
#[test]
fn input_past_the_limit_is_refused(rt: HostRuntime) -> Result<(), Fail> {
    let alloc = rt.alloc();
    for (len, line, reason) in [
        (67_108_865, 0, Reason::TooLarge),
        (67_108_864, 1, Reason::LineTooLong),
    ] {
        let bytes = vec![in alloc; b'#'; len]?;
        let mut source = MemSource::new(bytes, 1_000_000, Vec::new(alloc));
        let mut sink = MemSink::new(alloc, 10, 10, Vec::new(alloc))?;
        let ended = plain(alloc, Job::Replay, &mut source, &mut sink);
        assert_eq!(rt; ended, Status::ScriptRefused { line, reason });
        assert!(rt; sink.bytes().is_empty());
    }
    Ok(())
}

#[test]
fn each_fault_has_its_line_and_number(rt: HostRuntime) -> Result<(), Fail> {
    let usage = "usage: fibrun replay|check|show|gen [--workers N] [--seed N] [--count N]\n";
    let refused = |line: u32, reason: Reason| Status::ScriptRefused { line, reason };
    for (status, code, text) in [
        (Status::Ok, 0, ""),
        (
            refused(3, Reason::BadAddress),
            1,
            "fibrun: line 3: bad address\n",
        ),
        (
            refused(0, Reason::TooLarge),
            1,
            "fibrun: line 0: input too large\n",
        ),
        (Status::Usage, 2, usage),
        (Status::ReadFault, 3, "fibrun: read fault\n"),
        (Status::WriteFault, 4, "fibrun: write fault\n"),
        (Status::OutOfMemory, 5, "fibrun: out of memory\n"),
    ] {
        assert_eq!(rt; status.code(), code);
        assert_eq!(rt; fault_text(rt.alloc(), &status)?.as_str(), text);
    }
    Ok(())
}
