ghost use Rattle.nhop_index.specs.Laws.{IndexesApart, IndexesFit, LeastIsUnused, NexthopsAreNamed};

/// Law: an index that names two targets does so in versions that are K apart or more.
pub fn law_indexes_apart<const W: u32>()
    ensures { IndexesApart W }
{}

/// Law: with at most LIVE live targets each has an index from 1 to the greatest.
pub fn law_indexes_fit<const W: u32>()
    ensures { IndexesFit W }
{}

/// Law: the least unused index is unused, and each below it is used.
pub fn law_least_is_unused()
    ensures { LeastIsUnused }
{}

/// Law: where the nexthops of live groups are live, those of a group with an index have indexes.
pub fn law_nexthops_are_named<const W: u32>()
    ensures { NexthopsAreNamed W }
{}
