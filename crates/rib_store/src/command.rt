//! Commands and their replies.
use prefix_width::{Addr, Kind, Nexthop, Path, Prefix, Setting};

/// What is asked of the table. `Add`, `Change`, `Delete` and `Flush` are the requests of
/// FreeBSD's route(8).
#[derive(Clone, Copy, Debug, PartialEq, Eq)]
pub enum Command<const W: u32> {
    /// Adds a path to the route of a prefix, or the route where there is none.
    Add {
        prefix: Prefix<W>,
        path: Path<W>,
    },
    /// Puts one path in place of all paths of a prefix's route.
    Change {
        prefix: Prefix<W>,
        path: Path<W>,
    },
    /// Deletes the route of a prefix or, where a gateway is given, its paths to that gateway.
    Delete {
        prefix: Prefix<W>,
        gateway: Option<Addr<W>>,
    },
    /// Deletes every route that has a path to a gateway.
    Flush,
    /// Lets so many milliseconds pass.
    Tick {
        ms: u32,
    },
    /// Publishes the changes that are pending.
    Sync,
    /// Sets which lookup module is used.
    Algo {
        setting: Setting,
    },
}

/// What the table answers.
#[derive(Clone, Copy, Debug, PartialEq, Eq)]
pub enum Reply {
    /// The route is new.
    Added,
    /// The path has joined those of the route.
    Joined,
    /// The route has the path instead of those before.
    Changed,
    /// The route or some of its paths are gone.
    Deleted,
    /// So many routes are gone.
    Flushed(u32),
    /// The command asks nothing of the table.
    Nothing,
    /// The table is as before.
    Refused(Refusal),
}

/// Why the table refuses a command. The first of these that holds is given.
#[derive(Clone, Copy, Debug, PartialEq, Eq)]
pub enum Refusal {
    /// The route has a path with that nexthop, or one of the two drops packets.
    Exists = 1,
    /// The prefix has no route, or the route has no path to that gateway.
    NotFound = 2,
    /// The route has as many paths as a route may have.
    PathsFull = 3,
    /// There would be more routes than the table may have.
    TableFull = 4,
    /// There would be more live targets than the table may have.
    TargetsFull = 5,
}

impl<const W: u32> Command<W> {
    ghost use Rattle.std.specs.Prelude.{◌≡◌};
    ghost use Rattle.rib_store.specs.Plan.{named_by, sets_dxr};
    ghost use Rattle.rib_store.specs.Weights.{IsWeighted};

    /// The nexthop that an `Add` or a `Change` names, and what is known of the path's weight.
    pub(crate) fn nexthop(&self) -> Option<Nexthop<W>>
        ensures named { result ≡ named_by self.now }
        ensures weight { IsWeighted self.now }
    {
        match self {
            Command::Add { path, .. } | Command::Change { path, .. } => {
                let _weight = path.weight();
                Some(*path.nexthop())
            }
            _ => None,
        }
    }

    /// Whether it sets the module dxr.
    pub(crate) fn sets_dxr(&self) -> bool
        ensures { result ≡ sets_dxr self.now }
    {
        match self {
            Command::Algo {
                setting: Setting::Fixed(Kind::Dxr),
            } => true,
            _ => false,
        }
    }
}
