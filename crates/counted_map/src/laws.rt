ghost use Rattle.counted_map.specs.Laws.{CountsDecide, LinkRaises, UnlinkLowers};

/// Law: one more of a key raises its count by one, and no other count.
pub fn law_link_raises<K: Ord>()
    ensures { LinkRaises K.cmp }
{}

/// Law: one less of a key lowers its count by one, and no other count.
pub fn law_unlink_lowers<K: Ord>()
    ensures { UnlinkLowers K.cmp }
{}

/// Law: counts that agree at each key are the same.
pub fn law_counts_decide<K: Ord>()
    ensures { CountsDecide K.cmp }
{}
