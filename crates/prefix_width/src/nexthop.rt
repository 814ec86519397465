//! Nexthops.
ghost use Rattle.std.specs.Prelude.{◌≡◌};
ghost use Rattle.prefix_width.specs.declared.nexthop.NhKind.TheVariants.{Via, Direct, Blackhole, Reject};

use crate::addr::Addr;
use std::cmp::Ordering;
use std::marker::Model;

/// How a nexthop takes a packet, in the order of the variants.
#[derive(Clone, Copy, Debug, PartialEq, Eq)]
pub enum NhKind {
    /// To the gateway.
    Via,
    /// To the destination itself, on a directly attached network.
    Direct,
    /// Dropped without a word.
    Blackhole,
    /// Dropped with an error to the sender.
    Reject,
}

impl NhKind {
    ghost use Rattle.std.specs.Prelude.{◌≡◌};
    ghost use Rattle.prefix_width.specs.NhKind.{kind_rank};

    /// The place of the kind in the order.
    fn rank(self) -> u8
        ensures { result ≡ kind_rank self }
    {
        match self {
            NhKind::Via => 0,
            NhKind::Direct => 1,
            NhKind::Blackhole => 2,
            NhKind::Reject => 3,
        }
    }
}

impl Ord for NhKind {
    ghost use Rattle.std.proofs.Common.{refl};
    ghost use Rattle.std.specs.Ordering.{nat_cmp, on};
    ghost use Rattle.prefix_width.specs.NhKind.{kind_rank, kinds_total};
    ghost use Rattle.prefix_width.specs.declared.nexthop.NhKind.TheVariants.{Via, Direct, Blackhole, Reject};

    ghost cmp = { on kind_rank nat_cmp };

    ghost total = { kinds_total };

    ghost matches_partial_cmp = { λ x y. refl };

    ghost matches_eq = { elim [ Via ↦ elim [ Via ↦ refl | Direct ↦ refl | Blackhole ↦ refl | Reject ↦ refl ] | Direct ↦ elim [ Via ↦ refl | Direct ↦ refl | Blackhole ↦ refl | Reject ↦ refl ] | Blackhole ↦ elim [ Via ↦ refl | Direct ↦ refl | Blackhole ↦ refl | Reject ↦ refl ] | Reject ↦ elim [ Via ↦ refl | Direct ↦ refl | Blackhole ↦ refl | Reject ↦ refl ] ] };

    fn cmp(&self, other: &NhKind) -> Ordering {
        self.rank().cmp(&other.rank())
    }
}

impl PartialOrd for NhKind {
    ghost use Rattle.std.proofs.Common.{refl};
    ghost use Rattle.std.specs.Cmp.{partial_order_from_agreeing_total};
    ghost use Rattle.prefix_width.specs.declared.nexthop.NhKind.TheVariants.{Via, Direct, Blackhole, Reject};
    ghost use Rattle.std.specs.Ordering.{nat_cmp, on, as_partial_cmp};
    ghost use Rattle.prefix_width.specs.NhKind.{kind_rank, kinds_total};

    ghost partial_cmp = { as_partial_cmp (on kind_rank nat_cmp) };

    ghost laws = { partial_order_from_agreeing_total (on kind_rank nat_cmp) kinds_total (λ x y. refl) (elim [ Via ↦ elim [ Via ↦ refl | Direct ↦ refl | Blackhole ↦ refl | Reject ↦ refl ] | Direct ↦ elim [ Via ↦ refl | Direct ↦ refl | Blackhole ↦ refl | Reject ↦ refl ] | Blackhole ↦ elim [ Via ↦ refl | Direct ↦ refl | Blackhole ↦ refl | Reject ↦ refl ] | Reject ↦ elim [ Via ↦ refl | Direct ↦ refl | Blackhole ↦ refl | Reject ↦ refl ] ]) };

    fn partial_cmp(&self, other: &NhKind) -> Option<Ordering> {
        Some(self.cmp(other))
    }
}

/// Where a packet goes, ordered by these fields in turn. 0 means "not given".
#[derive(Clone, Copy, Debug, PartialEq, Eq, PartialOrd, Ord)]
pub struct Nexthop<const W: u32> {
    kind: NhKind,
    gateway: Addr<W>,
    iface: u16,
    mtu: u32,
}

impl<const W: u32> Model for Nexthop<W> {
    ghost use Rattle.prefix_width.specs.Nexthop.{Hop, IsHop};

    ghost Value = { Hop };

    ghost view = { λ n. record { kind = n.kind; gateway = n.gateway; iface = n.iface; mtu = n.mtu } };

    ghost invariant = { λ n. IsHop W (record { kind = n.kind; gateway = n.gateway; iface = n.iface; mtu = n.mtu }) };

    ghost inverse = { λ h. record { kind = h.kind; gateway = h.gateway; iface = h.iface; mtu = h.mtu } };
}

impl<const W: u32> Nexthop<W> {
    ghost use Rattle.std.specs.Prelude.{◌≡◌};
    ghost use Rattle.std.specs.Prelude.{◌≤◌};
    ghost use Rattle.std.specs.Option.{SomeIff};
    ghost use Rattle.prefix_width.specs.Nexthop.{IsHop};

    /// To a gateway, on an interface and with an MTU, 0 for either where it is not given.
    pub fn via(gateway: Addr<W>, iface: u16, mtu: u32) -> Nexthop<W>
        ensures { result ≡ record { kind = Via; gateway = gateway.entry; iface = iface; mtu = mtu } }
    {
        let _value = gateway.value();
        Nexthop {
            kind: NhKind::Via,
            gateway,
            iface,
            mtu,
        }
    }

    /// To the destination itself, on an interface. `None` where the interface is 0. `W` is from 1
    /// to 128.
    pub fn direct(iface: u16, mtu: u32) -> Option<Nexthop<W>>
        requires { (1 ≤ W) × (W ≤ 128) }
        ensures { SomeIff result (1 ≤ iface) (record { kind = Direct; gateway = 0; iface = iface; mtu = mtu }) }
    {
        if iface == 0 {
            return None;
        }
        Some(Nexthop {
            kind: NhKind::Direct,
            gateway: Addr { value: 0 },
            iface,
            mtu,
        })
    }

    /// Dropped without a word. `W` is from 1 to 128.
    pub fn blackhole() -> Nexthop<W>
        requires { (1 ≤ W) × (W ≤ 128) }
        ensures { result ≡ record { kind = Blackhole; gateway = 0; iface = 0; mtu = 0 } }
    {
        Nexthop {
            kind: NhKind::Blackhole,
            gateway: Addr { value: 0 },
            iface: 0,
            mtu: 0,
        }
    }

    /// Dropped with an error to the sender. `W` is from 1 to 128.
    pub fn reject() -> Nexthop<W>
        requires { (1 ≤ W) × (W ≤ 128) }
        ensures { result ≡ record { kind = Reject; gateway = 0; iface = 0; mtu = 0 } }
    {
        Nexthop {
            kind: NhKind::Reject,
            gateway: Addr { value: 0 },
            iface: 0,
            mtu: 0,
        }
    }

    /// The kind, and what every nexthop knows of its fields.
    pub fn kind(&self) -> NhKind
        ensures value { result ≡ self.now.kind }
        ensures hop { IsHop W self.now }
    {
        self.kind
    }

    /// The gateway, 0 where the kind has none.
    pub fn gateway(&self) -> Addr<W>
        ensures { result ≡ self.now.gateway }
    {
        self.gateway
    }

    /// The number of the interface, 0 where it is not given.
    pub fn iface(&self) -> u16
        ensures { result ≡ self.now.iface }
    {
        self.iface
    }

    /// The MTU in bytes, 0 where it is not given.
    pub fn mtu(&self) -> u32
        ensures { result ≡ self.now.mtu }
    {
        self.mtu
    }
}
