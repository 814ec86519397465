//! How long each index is unused.
ghost use Rattle.std.specs.Prelude.{◌≡◌, ℕ, ◌+◌, ◌<◌, ◌≤◌, max, List, ◌∷◌, length, OnOk, OnErr, get_or};
ghost use Rattle.std.specs.Map.{values_of};
ghost use Rattle.nhop_index.specs.Indexes.{is_used, least_unused};
ghost use Rattle.nhop_index.specs.Ages.{age_of, aged, AreAged, Walks};
ghost use Rattle.nhop_index.specs.Table.{IsEnd};

use crate::OutOfMemory;
use crate::table::NameTable;

/// The age of an index that no version has had, or none for very long.
const NEVER: u8 = 255;

/// Takes the next index that is old enough to be given again.
pub(crate) fn take_unused<const K: u64>(ages: &[u8], next: &mut u16) -> u16
    requires banks { K ≤ 8 }
    requires next { next.old < 65535 }
    requires few { length ages.now < 65535 }
    ensures least { (used : List ℕ) → Walks K used ages.now next.old → (result ≡ least_unused used) × Walks K (result ∷ used) ages.now next.new }
    ensures rises { (next.old ≤ result) × (next.new ≡ result + 1) }
    ensures bound { next.new ≤ max next.old (length ages.now) + 1 }
{
    let mut index = *next;
    'walk: while usize::from(index) < ages.len() && u64::from(ages[usize::from(index)]) + 1 < K {
        index += 1;
    }
    *next = index + 1;
    index
}

/// Makes the ages those after a version with these targets. An error leaves them as they were.
pub(crate) fn age<const W: u32>(ages: &mut Vec<u8>, table: &NameTable<W>) -> Result<(), OutOfMemory>
    ensures aged { OnOk result (AreAged table.now ages.old.items ages.new.items) }
    ensures len { OnOk result ((end : ℕ) × IsEnd (values_of table.now) end × (length ages.new.items ≤ max (length ages.old.items) end)) }
    ensures err { OnErr result (ages.new.items ≡ ages.old.items) }
{
    let len = ages.len().max(table.end());
    ages.resize(len, NEVER)?;
    renew(ages, table);
    Ok(())
}

/// Counts one version more for each age.
fn renew<const W: u32>(ages: &mut Vec<u8>, table: &NameTable<W>)
    ensures len { length ages.new.items ≡ length ages.old.items }
    ensures ages { (i : ℕ) → i < length ages.old.items → get_or ages.new.items i 255 ≡ aged (is_used (values_of table.now) i) (get_or ages.old.items i 255) }
{
    for i in 0..ages.len() {
        ages[i] = if table.is_used(i) {
            0
        } else {
            ages[i].saturating_add(1)
        };
    }
}
