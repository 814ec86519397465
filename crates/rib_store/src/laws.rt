ghost use Rattle.rib_store.specs.Laws.{LimitsAreTried, LiveTargetsAreCounted, NumbersDiffer, NumbersLeadBack, TablesAreInOrder, TablesAreWithin, TablesAreSpread};

/// Law: the nexthop of a nexthop's number in a plan is that nexthop.
pub fn law_numbers_lead_back<const W: u32>()
    ensures { NumbersLeadBack W }
{}

/// Law: two nexthops never share a number in a plan.
pub fn law_numbers_differ<const W: u32>()
    ensures { NumbersDiffer W }
{}

/// Law: the live targets are as many as are held against the limit of a table.
pub fn law_live_targets_are_counted<const W: u32>()
    ensures { LiveTargetsAreCounted W }
{}

/// Law: on a table within both limits a command does what it would do without them, unless the table
/// that it makes passes one. So both limits are tried behind every command, whatever it asks.
pub fn law_limits_are_tried<const W: u32>()
    ensures { LimitsAreTried W }
{}

/// Law: the rows of every table of a plan ascend strictly by prefix, and each has a list of paths.
pub fn law_tables_are_in_order<const W: u32>()
    ensures { TablesAreInOrder W }
{}

/// Law: the paths of every row of every table of a plan have weights that their kinds may have, and
/// a layout of their own.
pub fn law_tables_are_spread<const W: u32>()
    ensures { TablesAreSpread W }
{}

/// Law: every table of a plan is within both limits, whatever the limit of live targets is.
pub fn law_tables_are_within<const W: u32>()
    ensures { TablesAreWithin W }
{}
