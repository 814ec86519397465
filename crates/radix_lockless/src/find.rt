ghost use Rattle.std.specs.Prelude.{◌≡◌, ℕ, ◌+◌, ◌≤◌, List};
ghost use Rattle.prefix_width.specs.Prefix.{Block};
ghost use Rattle.prefix_width.specs.Longest.{longest};
ghost use Rattle.module_trait.specs.Rows.{index_of};
ghost use Rattle.radix_lockless.specs.Packed.{seen};
ghost use Rattle.radix_lockless.specs.Trie.{StandsFor};

use crate::key::Key;
use crate::packed::NodeView;
use module_trait::{NodeReads, Steps};
use prefix_width::Addr;
use std::sync::ledger::Ledger;

/// The index of the longest row that contains the address: the last one on the way down to it.
pub(crate) fn longest_in<const W: u32, P: NodeView<W>, N: NodeReads<Node = P>, L: Ledger>(
    nodes: &N,
    root: Option<Key>,
    addr: &Addr<W>,
    steps: &mut Steps<L>,
) -> Option<u16>
    requires { (rows : List (Block × ℕ)) × StandsFor (seen P.node (N.node nodes.now)) root rows }
    ensures answer { (rows : List (Block × ℕ)) → StandsFor (seen P.node (N.node nodes.now)) root rows → result ≡ index_of (longest W rows addr.now) }
    ensures cost { steps.new ≤ steps.old + (W + 1) }
{
    let mut best = None;
    let mut at = root;
    while let Some(key) = at {
        let node = nodes.at(key.number(), steps);
        if !node.contains(addr) {
            break;
        }
        best = node.index().or(best);
        let len = node.len();
        if u32::from(len) == W {
            break;
        }
        at = node.child(addr.bit(len));
    }
    best
}
