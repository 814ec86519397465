//! Long scripts whose versions are cut by bucket, batch, tick and sync, and the limits of paths and
//! targets: how their outputs end.
use crate::{Job, Status, plain};
use outside_io::{MemSink, MemSource};
use std::alloc::Global;
use std::test::Fail;

/// What each `add` of a series adds.
#[derive(Clone, Copy)]
enum Series {
    /// Host routes by one gateway.
    Hosts,
    /// Routes of 24 bits by one gateway.
    Subnets,
    /// Host routes, each by a gateway of its own.
    Gateways,
    /// Paths of one route.
    Paths,
}

/// A series of adds from a number on, and what comes behind it.
#[derive(Drop)]
struct Case {
    series: Series,
    first: u32,
    count: u32,
    behind: &'static str,
    end: &'static str,
}

const CASES: [Case; 5] = [
    Case {
        series: Series::Hosts,
        first: 1,
        count: 26,
        behind: "get 10.0.0.26\ntick 50\nget 10.0.0.26\n",
        end: "27 10.0.0.26 version 25 none
29 10.0.0.26 version 26 via 192.0.2.1 if 0 mtu 0
packets inet 1 via 192.0.2.1 if 0 mtu 0
fib inet version 26 routes 26 algo range
fib inet6 version 0 routes 0 algo range
",
    },
    Case {
        series: Series::Hosts,
        first: 0,
        count: 280,
        behind: "get 10.0.0.25\nadd 10.0.1.24 192.0.2.1\nget 10.0.0.25\n",
        end: "281 10.0.0.25 version 25 none
282 added
283 10.0.0.25 version 26 via 192.0.2.1 if 0 mtu 0
packets inet 1 via 192.0.2.1 if 0 mtu 0
fib inet version 26 routes 281 algo radix
fib inet6 version 0 routes 0 algo range
",
    },
    Case {
        series: Series::Subnets,
        first: 0,
        count: 1_100,
        behind: "get 10.0.0.9\nsync\nget 10.4.75.9\n",
        end: "1101 10.0.0.9 version 29 via 192.0.2.1 if 0 mtu 0
1103 10.4.75.9 version 30 via 192.0.2.1 if 0 mtu 0
packets inet 2 via 192.0.2.1 if 0 mtu 0
fib inet version 30 routes 1100 algo dxr
fib inet6 version 0 routes 0 algo range
",
    },
    Case {
        series: Series::Paths,
        first: 1,
        count: 65,
        behind: "",
        end: "64 joined
65 refused paths full
fib inet version 26 routes 1 algo range
fib inet6 version 0 routes 0 algo range
",
    },
    Case {
        series: Series::Gateways,
        first: 0,
        count: 4_096,
        behind: "",
        end: "4095 added
4096 refused targets full
fib inet version 41 routes 4095 algo dxr
fib inet6 version 0 routes 0 algo range
",
    },
];

fn line(alloc: Global, series: Series, k: u32) -> Result<String, Fail> {
    let (x, y) = (k / 256, k % 256);
    let line = match series {
        Series::Hosts => format!(in alloc; "add 10.0.{x}.{y} 192.0.2.1\n")?,
        Series::Subnets => format!(in alloc; "add 10.{x}.{y}.0/24 192.0.2.1\n")?,
        Series::Gateways => format!(in alloc; "add 10.0.{x}.{y} 10.1.{x}.{y}\n")?,
        Series::Paths => format!(in alloc; "add 10.0.0.0/8 192.0.2.{y}\n")?,
    };
    Ok(line)
}

fn script(alloc: Global, case: &Case) -> Result<Vec<u8>, Fail> {
    let mut text = Vec::new(alloc);
    for n in 0..case.count {
        let line = line(alloc, case.series, case.first.wrapping_add(n))?;
        text.extend_from_slice(line.as_bytes())?;
    }
    text.extend_from_slice(case.behind.as_bytes())?;
    Ok(text)
}

#[test]
fn outputs_end_as_versions_and_limits_say(rt: HostRuntime) -> Result<(), Fail> {
    let alloc = rt.alloc();
    for case in CASES {
        let text = script(alloc, &case)?;
        let mut source = MemSource::new(text, 4096, Vec::new(alloc));
        let mut sink = MemSink::new(alloc, 100_000, 4096, Vec::new(alloc))?;
        let ended = plain(alloc, Job::Replay, &mut source, &mut sink);
        assert_eq!(rt; ended, Status::Ok);
        assert!(rt;
            sink.bytes().ends_with(case.end.as_bytes()),
            "of {0}",
            case.end
        );
    }
    Ok(())
}

// The 26th change is pending, so the algo makes a version whatever module served before.
const ADDED_BEFORE_ALGO: Case = Case {
    series: Series::Hosts,
    first: 1,
    count: 26,
    behind: "",
    end: "",
};

const BEHIND_ALGO: &str = "\
add 10.0.0.0/24 192.0.2.2
add 10.0.0.0/24 192.0.2.3 -weight 2
sync
get 10.0.0.26
get 10.0.0.99
get 10.0.0.99 flow 1
get 10.0.0.99 flow 5
get 10.0.1.0
";

const ANSWERED_ALIKE: &str = "\
28 added
29 joined
31 10.0.0.26 version 27 via 192.0.2.1 if 0 mtu 0
32 10.0.0.99 version 27 via 192.0.2.2 if 0 mtu 0
33 10.0.0.99 version 27 via 192.0.2.3 if 0 mtu 0
34 10.0.0.99 version 27 via 192.0.2.3 if 0 mtu 0
35 10.0.1.0 version 27 none
packets inet 1 via 192.0.2.1 if 0 mtu 0
packets inet 1 via 192.0.2.2 if 0 mtu 0
packets inet 2 via 192.0.2.3 if 0 mtu 0
fib inet version 27 routes 27 algo ";

#[test]
fn each_module_answers_alike(rt: HostRuntime) -> Result<(), Fail> {
    let alloc = rt.alloc();
    for name in ["scan", "range", "radix", "dxr"] {
        let mut text = script(alloc, &ADDED_BEFORE_ALGO)?;
        let algo = format!(in alloc; "algo {name}\n{BEHIND_ALGO}")?;
        text.extend_from_slice(algo.as_bytes())?;
        let mut source = MemSource::new(text, 4096, Vec::new(alloc));
        let mut sink = MemSink::new(alloc, 4096, 4096, Vec::new(alloc))?;
        let ended = plain(alloc, Job::Replay, &mut source, &mut sink);
        assert_eq!(rt; ended, Status::Ok);
        let end = format!(in alloc;
            "{ANSWERED_ALIKE}{name}\nfib inet6 version 0 routes 0 algo range\n"
        )?;
        assert!(rt; sink.bytes().ends_with(end.as_bytes()));
    }
    Ok(())
}
