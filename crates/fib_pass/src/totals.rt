//! What is told of a fib that is closed.
ghost use Rattle.std.specs.Prelude.{◌≡◌};

use prefix_width::Nexthop;
use std::marker::Model;

/// What a pass had done.
#[derive(Clone, Copy, Debug, PartialEq, Eq)]
pub struct PassEnd {
    /// How many lookups it had made.
    pub lookups: u64,
    /// The latest version that it had seen.
    pub seen: u64,
}

/// How many lookups were answered with a nexthop.
#[derive(Clone, Copy, Debug, PartialEq, Eq)]
pub struct Packets<const W: u32> {
    /// The nexthop.
    pub nexthop: Nexthop<W>,
    /// The number of lookups, 1 or more.
    pub count: u64,
}

/// What the passes of a fib did. Only [`crate::Publisher::close`] makes one.
#[derive(Debug, Drop)]
pub struct Totals<const W: u32> {
    version: u64,
    lookups: u64,
    passes: Vec<PassEnd>,
    packets: Vec<Packets<W>>,
}

impl<const W: u32> Model for Totals<W> {
    ghost use Rattle.fib_pass.specs.Totals.{TotalsView};

    ghost Value = { TotalsView W };

    ghost view = { λ t. record { version = t.version; lookups = t.lookups; passes = t.passes.items; packets = t.packets.items } };
}

impl<const W: u32> Totals<W> {
    /// These totals.
    pub(crate) fn new(
        version: u64,
        lookups: u64,
        passes: Vec<PassEnd>,
        packets: Vec<Packets<W>>,
    ) -> Totals<W>
        ensures { result ≡ record { version = version; lookups = lookups; passes = passes.items; packets = packets.entry.items } }
    {
        Totals {
            version,
            lookups,
            passes,
            packets,
        }
    }

    /// The version that was published last.
    pub fn version(&self) -> u64
        ensures { result ≡ self.now.version }
    {
        self.version
    }

    /// How many lookups all passes made.
    pub fn lookups(&self) -> u64
        ensures { result ≡ self.now.lookups }
    {
        self.lookups
    }

    /// What each pass had done, in the order in which they were given.
    pub fn passes(&self) -> &[PassEnd]
        ensures { result.now ≡ self.now.passes }
    {
        self.passes.as_slice()
    }

    /// Each nexthop that a lookup was answered with, in nexthop order, with how many were.
    pub fn packets(&self) -> &[Packets<W>]
        ensures { result.now ≡ self.now.packets }
    {
        self.packets.as_slice()
    }
}

/// The totals of both families.
#[derive(Debug, Drop)]
pub struct FibTotals {
    /// IPv4.
    pub inet: Totals<32>,
    /// IPv6.
    pub inet6: Totals<128>,
}
