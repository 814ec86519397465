ghost use Rattle.fib_edits.specs.Laws.{IndexesAreKept, RowsAreNamed};

/// Law: what has an index in a version and in the next has the same.
pub fn law_indexes_are_kept<const W: u32>()
    ensures { IndexesAreKept W }
{}

/// Law: each row has an index of 1 or more.
pub fn law_rows_are_named<const W: u32>()
    ensures { RowsAreNamed W }
{}
