ghost use Rattle.std.specs.Prelude.{◌≡◌, ℕ, ◌+◌, Option, Some, IsSome};

use crate::steps::Steps;
use std::sync::ledger::Ledger;

/// Nodes by key, which nothing but a counted read looks into.
pub trait NodeReads {
    /// What a key has.
    type Node;

    /// The node at each key, `None` where there is none.
    ghost node: { Self → ℕ → Option Self.Node };

    /// The node at a key, in one step.
    fn at<L: Ledger>(&self, key: usize, steps: &mut Steps<L>) -> &Self::Node
        requires { IsSome (node self.now key) }
        ensures value { node self.now key ≡ Some result.now }
        ensures cost { steps.new ≡ steps.old + 1 };
}
