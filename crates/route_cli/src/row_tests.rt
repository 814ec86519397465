//! Worked examples: scripts, and all that is written of each or the fault that refuses it.
ghost use Rattle.route_cli.specs.Result.{FitsJob};

use crate::{Job, Status, plain};
use outside_io::{MemSink, MemSource};
use route_lang::Reason;
use std::alloc::Global;
use std::test::Fail;

const FIRST_PATH: (&str, &str) = (
    "\
add default 192.0.2.1
add 10.0.0.0/8 192.0.2.2
get 10.255.255.255
get 11.0.0.0
",
    "\
1 added
2 added
3 10.255.255.255 version 2 via 192.0.2.2 if 0 mtu 0
4 11.0.0.0 version 2 via 192.0.2.1 if 0 mtu 0
packets inet 1 via 192.0.2.1 if 0 mtu 0
packets inet 1 via 192.0.2.2 if 0 mtu 0
fib inet version 2 routes 2 algo range
fib inet6 version 0 routes 0 algo range
",
);

const FLUSH_AFTER_ADD: (&str, &str) = (
    "\
add 10.0.0.0/8 192.0.2.1
flush
",
    "\
1 added
2 flushed 1
fib inet version 2 routes 0 algo range
fib inet6 version 0 routes 0 algo range
",
);

const TYPE_ENDS: (&str, &str) = (
    "\
add default -if 1
add 255.255.255.255 192.0.2.1
get 0.0.0.0
get 255.255.255.254
get 255.255.255.255
",
    "\
1 added
2 added
3 0.0.0.0 version 2 direct if 1 mtu 0
4 255.255.255.254 version 2 direct if 1 mtu 0
5 255.255.255.255 version 2 via 192.0.2.1 if 0 mtu 0
packets inet 1 via 192.0.2.1 if 0 mtu 0
packets inet 2 direct if 1 mtu 0
fib inet version 2 routes 2 algo range
fib inet6 version 0 routes 0 algo range
",
);

const NESTED_PREFIXES: (&str, &str) = (
    "\
add 10.0.0.0/8 192.0.2.1
add 10.1.0.0/16 192.0.2.2
add 10.1.2.0/24 192.0.2.3
get 9.255.255.255
get 11.0.0.0
get 10.0.0.0
get 10.0.255.255
get 10.2.0.0
get 10.255.255.255
get 10.1.0.0
get 10.1.1.255
get 10.1.3.0
get 10.1.255.255
get 10.1.2.0
get 10.1.2.255
",
    "\
1 added
2 added
3 added
4 9.255.255.255 version 3 none
5 11.0.0.0 version 3 none
6 10.0.0.0 version 3 via 192.0.2.1 if 0 mtu 0
7 10.0.255.255 version 3 via 192.0.2.1 if 0 mtu 0
8 10.2.0.0 version 3 via 192.0.2.1 if 0 mtu 0
9 10.255.255.255 version 3 via 192.0.2.1 if 0 mtu 0
10 10.1.0.0 version 3 via 192.0.2.2 if 0 mtu 0
11 10.1.1.255 version 3 via 192.0.2.2 if 0 mtu 0
12 10.1.3.0 version 3 via 192.0.2.2 if 0 mtu 0
13 10.1.255.255 version 3 via 192.0.2.2 if 0 mtu 0
14 10.1.2.0 version 3 via 192.0.2.3 if 0 mtu 0
15 10.1.2.255 version 3 via 192.0.2.3 if 0 mtu 0
packets inet 4 via 192.0.2.1 if 0 mtu 0
packets inet 4 via 192.0.2.2 if 0 mtu 0
packets inet 2 via 192.0.2.3 if 0 mtu 0
fib inet version 3 routes 3 algo range
fib inet6 version 0 routes 0 algo range
",
);

const NESTED_MIDDLE_DELETED: (&str, &str) = (
    "\
add 10.0.0.0/8 192.0.2.1
add 10.1.0.0/16 192.0.2.2
add 10.1.2.0/24 192.0.2.3
delete 10.1.0.0/16
get 10.1.3.0
get 10.1.2.9
",
    "\
1 added
2 added
3 added
4 deleted
5 10.1.3.0 version 4 via 192.0.2.1 if 0 mtu 0
6 10.1.2.9 version 4 via 192.0.2.3 if 0 mtu 0
packets inet 1 via 192.0.2.1 if 0 mtu 0
packets inet 1 via 192.0.2.3 if 0 mtu 0
fib inet version 4 routes 2 algo range
fib inet6 version 0 routes 0 algo range
",
);

const IPV6_TEXTS: (&str, &str) = (
    "\
add -inet6 default 2001:DB8:0:0:0:0:0:1
add -inet6 2001:db8::ff 2001:db8::2
get -inet6 2001:0db8::00FF
get -inet6 ::ffff:192.0.2.1
get -inet6 2001:db8:0:1:1:1:1:1
",
    "\
1 added
2 added
3 2001:db8::ff version 2 via 2001:db8::2 if 0 mtu 0
4 ::ffff:c000:201 version 2 via 2001:db8::1 if 0 mtu 0
5 2001:db8:0:1:1:1:1:1 version 2 via 2001:db8::1 if 0 mtu 0
packets inet6 2 via 2001:db8::1 if 0 mtu 0
packets inet6 1 via 2001:db8::2 if 0 mtu 0
fib inet version 0 routes 0 algo range
fib inet6 version 2 routes 2 algo range
",
);

const EXISTS_AND_NOT_FOUND: (&str, &str) = (
    "\
add 10.0.0.0/8 192.0.2.1
add 10.9.9.9/8 192.0.2.1 -weight 5
delete 10.0.0.0/8
delete 10.0.0.0/8
",
    "\
1 added
2 refused exists
3 deleted
4 refused not found
fib inet version 2 routes 0 algo range
fib inet6 version 0 routes 0 algo range
",
);

const WEIGHTED_GROUP_EXTREME: (&str, &str) = (
    "\
add 10.0.0.0/8 192.0.2.1 -weight 1
add 10.0.0.0/8 192.0.2.2 -weight 16777215
get 10.0.0.1 flow 0
get 10.0.0.1 flow 1
get 10.0.0.1 flow 4294967295
",
    "\
1 added
2 joined
3 10.0.0.1 version 2 via 192.0.2.2 if 0 mtu 0
4 10.0.0.1 version 2 via 192.0.2.2 if 0 mtu 0
5 10.0.0.1 version 2 via 192.0.2.2 if 0 mtu 0
packets inet 3 via 192.0.2.2 if 0 mtu 0
fib inet version 2 routes 1 algo range
fib inet6 version 0 routes 0 algo range
",
);

const GATEWAY_ZERO: (&str, &str) = (
    "\
add 0.0.0.0/0 0.0.0.0
get 10.0.0.1
",
    "\
1 added
2 10.0.0.1 version 1 via 0.0.0.0 if 0 mtu 0
packets inet 1 via 0.0.0.0 if 0 mtu 0
fib inet version 1 routes 1 algo range
fib inet6 version 0 routes 0 algo range
",
);

const RESILIENT_DELETE: (&str, &str) = (
    "\
profile 2
add 10.0.0.0/8 192.0.2.1
add 10.0.0.0/8 192.0.2.2
add 10.0.0.0/8 192.0.2.3 -weight 2
get 10.0.0.1 flow 3
delete 10.0.0.0/8 192.0.2.1
get 10.0.0.1
get 10.0.0.1 flow 3
",
    "\
2 added
3 joined
4 joined
5 10.0.0.1 version 3 via 192.0.2.3 if 0 mtu 0
6 deleted
7 10.0.0.1 version 4 via 192.0.2.2 if 0 mtu 0
8 10.0.0.1 version 4 via 192.0.2.3 if 0 mtu 0
packets inet 1 via 192.0.2.2 if 0 mtu 0
packets inet 2 via 192.0.2.3 if 0 mtu 0
fib inet version 4 routes 1 algo range
fib inet6 version 0 routes 0 algo range
",
);

const PLAIN_DELETE: (&str, &str) = (
    "\
profile 1
add 10.0.0.0/8 192.0.2.1
add 10.0.0.0/8 192.0.2.2
add 10.0.0.0/8 192.0.2.3 -weight 2
get 10.0.0.1 flow 3
delete 10.0.0.0/8 192.0.2.1
get 10.0.0.1
get 10.0.0.1 flow 3
",
    "\
2 added
3 joined
4 joined
5 10.0.0.1 version 3 via 192.0.2.3 if 0 mtu 0
6 deleted
7 10.0.0.1 version 4 via 192.0.2.2 if 0 mtu 0
8 10.0.0.1 version 4 via 192.0.2.2 if 0 mtu 0
packets inet 2 via 192.0.2.2 if 0 mtu 0
packets inet 1 via 192.0.2.3 if 0 mtu 0
fib inet version 4 routes 1 algo range
fib inet6 version 0 routes 0 algo range
",
);

const WHOLE: [(&str, &str); 11] = [
    FIRST_PATH,
    FLUSH_AFTER_ADD,
    TYPE_ENDS,
    NESTED_PREFIXES,
    NESTED_MIDDLE_DELETED,
    IPV6_TEXTS,
    EXISTS_AND_NOT_FOUND,
    WEIGHTED_GROUP_EXTREME,
    GATEWAY_ZERO,
    RESILIENT_DELETE,
    PLAIN_DELETE,
];

// A comment of 255 bytes, and one of 256.
const COMMENT_OF_255: &str = "\
#xxxxxxxxxxxxxxxxxxxxxxxxxxxxxxxxxxxxxxxxxxxxxxxxxxxxxxxxxxxxxxxx\
xxxxxxxxxxxxxxxxxxxxxxxxxxxxxxxxxxxxxxxxxxxxxxxxxxxxxxxxxxxxxxxx\
xxxxxxxxxxxxxxxxxxxxxxxxxxxxxxxxxxxxxxxxxxxxxxxxxxxxxxxxxxxxxxxx\
xxxxxxxxxxxxxxxxxxxxxxxxxxxxxxxxxxxxxxxxxxxxxxxxxxxxxxxxxxxxxx\
";

const COMMENT_OF_256: &str = "\
sync
#xxxxxxxxxxxxxxxxxxxxxxxxxxxxxxxxxxxxxxxxxxxxxxxxxxxxxxxxxxxxxxxx\
xxxxxxxxxxxxxxxxxxxxxxxxxxxxxxxxxxxxxxxxxxxxxxxxxxxxxxxxxxxxxxxx\
xxxxxxxxxxxxxxxxxxxxxxxxxxxxxxxxxxxxxxxxxxxxxxxxxxxxxxxxxxxxxxxx\
xxxxxxxxxxxxxxxxxxxxxxxxxxxxxxxxxxxxxxxxxxxxxxxxxxxxxxxxxxxxxxx\
";

const CHECKED: [(&str, &str); 2] = [
    (COMMENT_OF_255, "ok 1 lines 0 commands\n"),
    ("tick 4294967295\n", "ok 1 lines 1 commands\n"),
];

// Scripts with the first line that is refused, and why.
const REFUSED: [(&str, u32, Reason); 15] = [
    (
        "add 10.0.0.0/8 192.0.2.1\ntick 5\nadd 10.0.0.0/33 192.0.2.1\nsync\nadd\n",
        3,
        Reason::BadAddress,
    ),
    (
        "add 10.0.0.0/8 192.0.2.1\ntick 5\nadd 10.0.0.0/24 192.0.2.1\nsync\nadd\n",
        5,
        Reason::MissingWord,
    ),
    (COMMENT_OF_256, 2, Reason::LineTooLong),
    ("algo -inet6 dxr\n", 1, Reason::NoModule),
    ("tick 05\n", 1, Reason::BadNumber),
    ("add -inet -inet6 default 192.0.2.1\n", 1, Reason::Repeated),
    ("add default\n", 1, Reason::NoTarget),
    ("add -net 10.0.0.0 192.0.2.1\n", 1, Reason::BadLength),
    ("add -inet6 default fe80::1%em0\n", 1, Reason::BadAddress),
    ("get 10.0.0.1 10.0.0.2\n", 1, Reason::ExtraWord),
    ("add -foo\n", 1, Reason::UnknownOption),
    ("del 10.0.0.0/8\n", 1, Reason::UnknownCommand),
    ("sync \x01\n", 1, Reason::BadByte),
    ("sync\nprofile 2\n", 2, Reason::NotFirst),
    (
        "sync\nadd default -blackhole\nget ::1\n",
        3,
        Reason::BadAddress,
    ),
];

/// How a job ends, and what it has written then.
fn ended(alloc: Global, job: Job, script: &[u8], room: usize) -> Result<(Status, MemSink), Fail>
    requires { FitsJob job }
{
    let bytes = Vec::from_slice(alloc, script)?;
    let mut source = MemSource::new(bytes, 4096, Vec::new(alloc));
    let mut sink = MemSink::new(alloc, room, 4096, Vec::new(alloc))?;
    let status = plain(alloc, job, &mut source, &mut sink);
    Ok((status, sink))
}

#[test]
fn worked_scripts_are_replayed_checked_and_refused(rt: HostRuntime) -> Result<(), Fail> {
    let alloc = rt.alloc();
    for (script, output) in WHOLE {
        let (status, sink) = ended(alloc, Job::Replay, script.as_bytes(), 2000)?;
        assert_eq!(rt; status, Status::Ok, "of {script}");
        assert_eq!(rt; sink.bytes(), output.as_bytes(), "of {script}");
    }
    for (script, output) in CHECKED {
        let (status, sink) = ended(alloc, Job::Check, script.as_bytes(), 2000)?;
        assert_eq!(rt; status, Status::Ok, "of {script}");
        assert_eq!(rt; sink.bytes(), output.as_bytes(), "of {script}");
    }
    for (script, line, reason) in REFUSED {
        let (status, sink) = ended(alloc, Job::Replay, script.as_bytes(), 2000)?;
        assert_eq!(rt;
            status,
            Status::ScriptRefused { line, reason },
            "of {script}"
        );
        assert!(rt; sink.bytes().is_empty(), "of {script}");
    }
    Ok(())
}

// As many lines as there may be, and one more.
#[test]
fn a_script_has_at_most_1048576_lines(rt: HostRuntime) -> Result<(), Fail> {
    let alloc = rt.alloc();
    let mut text = Vec::from_slice(alloc, b"add default 192.0.2.1\n")?;
    for _ in 1..1_048_576 {
        text.extend_from_slice(b"get 10.0.0.1\n")?;
    }
    let (status, sink) = ended(alloc, Job::Replay, &text, 70_000_000)?;
    assert_eq!(rt; status, Status::Ok);
    let end = "\
1048576 10.0.0.1 version 1 via 192.0.2.1 if 0 mtu 0
packets inet 1048575 via 192.0.2.1 if 0 mtu 0
fib inet version 1 routes 1 algo range
fib inet6 version 0 routes 0 algo range
";
    assert!(rt; sink.bytes().ends_with(end.as_bytes()));
    text.extend_from_slice(b"\n")?;
    let (status, sink) = ended(alloc, Job::Check, &text, 10)?;
    let reason = Reason::TooManyLines;
    assert_eq!(rt;
        status,
        Status::ScriptRefused {
            line: 1_048_577,
            reason
        }
    );
    assert!(rt; sink.bytes().is_empty());
    Ok(())
}
