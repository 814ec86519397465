//! The longest match among rows.
ghost use Rattle.std.specs.Prelude.{◌≡◌};
ghost use Rattle.prefix_width.specs.Longest.{longest, longer, only_if_in};

use crate::addr::Addr;
use crate::prefix::Prefix;

/// Of all rows whose prefix contains the address, the one of greatest length, by looking at
/// every row. This is the plain program of the definition, which every lookup engine answers to.
pub fn longest_match<T: Copy, const W: u32>(
    rows: &[(Prefix<W>, T)],
    addr: &Addr<W>,
) -> Option<(Prefix<W>, T)>
    ensures { result ≡ longest W rows.now addr.now }
{
    let mut best = None;
    for row in rows {
        best = longer_of(best, *row, addr);
    }
    best
}

/// The best row so far, or the next one where it contains the address and is longer.
fn longer_of<T: Copy, const W: u32>(
    best: Option<(Prefix<W>, T)>,
    row: (Prefix<W>, T),
    addr: &Addr<W>,
) -> Option<(Prefix<W>, T)>
    ensures { result ≡ longer best (only_if_in W addr.now row) }
{
    if !row.0.contains(addr) {
        return best;
    }
    match best {
        Some(other) => {
            if other.0.len() < row.0.len() {
                Some(row)
            } else {
                Some(other)
            }
        }
        None => Some(row),
    }
}
