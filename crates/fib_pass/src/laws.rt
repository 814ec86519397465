ghost use Rattle.fib_pass.specs.Laws.{AnswersHaveNumbers, FreshPairsAreFree, NamesAreFit, PairsAreNumbers};

/// Law: each version names distinct indexes, from 1 to the greatest, for numbers of the plan's
/// nexthops, and version 0 names nothing.
pub fn law_names_are_fit<const W: u32>()
    ensures { NamesAreFit W }
{}

/// Law: no index that a version names anew is named by one of the last `K - 1` versions before it.
pub fn law_fresh_pairs_are_free<const W: u32>()
    ensures { FreshPairsAreFree W }
{}

/// Law: a version names an index for a number exactly where the index is that of its nexthop.
pub fn law_pairs_are_numbers<const W: u32>()
    ensures { PairsAreNumbers W }
{}

/// Law: each nexthop that a version's table answers has a number.
pub fn law_answers_have_numbers<const W: u32>()
    ensures { AnswersHaveNumbers W }
{}
