use prefix_width::Nexthop;

/// The answer of a get: a version, and the nexthop by its table. That of the family that the get
/// isn't of is `None`.
#[derive(Clone, Copy, Debug, PartialEq, Eq)]
pub struct Got {
    /// The version of the get's family that it was looked up in, 0 where the table is still empty.
    pub version: u64,
    /// The nexthop of IPv4, `None` where no route of the version contains the address.
    pub inet: Option<Nexthop<32>>,
    /// The nexthop of IPv6, `None` where no route of the version contains the address.
    pub inet6: Option<Nexthop<128>>,
}
