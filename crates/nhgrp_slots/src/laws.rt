ghost use Rattle.nhgrp_slots.specs.Laws.{KeepsWhatStays, KeptIsLayout, LayoutIsOfPaths, LeftAreSpreads, SharesAreAll, SlotsAreFilled, SlotsHoldPicked, SmallSharesAreExact, SpreadsAreOfPaths};

/// Law: there are 1 to 64 slots, and the shares are all of them.
pub fn law_shares_are_all()
    ensures { SharesAreAll }
{}

/// Law: all slots are filled.
pub fn law_slots_are_filled()
    ensures { SlotsAreFilled }
{}

/// Law: where 64 slots are enough, each path has its weight by the greatest common divisor.
pub fn law_small_shares_are_exact()
    ensures { SmallSharesAreExact }
{}

/// Law: a flow's slot holds the index of the path whose nexthop is picked for the flow.
pub fn law_slots_hold_picked()
    ensures { SlotsHoldPicked }
{}

/// Law: a slot whose nexthop is among the new paths holds it in the layout that is kept.
pub fn law_keep_moves_no_slot_that_stays()
    ensures { KeepsWhatStays }
{}

/// Law: the layout that is kept has as many slots as before, and is one of the new paths.
pub fn law_kept_is_layout()
    ensures { KeptIsLayout }
{}

/// Law: the layout that weights give is one of the paths, and picks for each flow the path whose
/// share holds the flow's slot.
pub fn law_layout_picks_as_slots()
    ensures { LayoutIsOfPaths }
{}

/// Law: paths with the layout that their weights give are the paths of a route.
pub fn law_spreads_are_of_paths()
    ensures { SpreadsAreOfPaths }
{}

/// Law: what is left of the paths of a route are such paths, whether layouts are kept or not.
pub fn law_left_are_spreads()
    ensures { LeftAreSpreads }
{}
