//! The key of a node.
ghost use Rattle.std.specs.Prelude.{◌≡◌, ◌<◌};
ghost use Rattle.module_trait.specs.declared.nodes.TheConstants.{KEYS_MAX};
ghost use Rattle.radix_lockless.specs.Packed.{child_of};

use module_trait::KEYS_MAX;
use std::marker::Model;

/// The key of a node. It fits 32 bits, and so does a number that is no key.
#[derive(Clone, Copy)]
pub struct Key {
    number: u32,
}

impl Model for Key {
    ghost use Rattle.std.specs.Prelude.{ℕ, ◌<◌};
    ghost use Rattle.module_trait.specs.declared.nodes.TheConstants.{KEYS_MAX};

    ghost Value = { ℕ };

    ghost view = { λ k. k.number };

    ghost invariant = { λ k. k.number < KEYS_MAX };

    ghost inverse = { λ n. record { number = n } };
}

impl Key {
    /// The key of this number.
    pub(crate) fn new(number: usize) -> Key
        requires { number < KEYS_MAX }
        ensures { result ≡ number }
    {
        Key {
            number: number as u32,
        }
    }

    /// Its number.
    pub(crate) fn number(&self) -> usize
        ensures { result ≡ self.now }
    {
        self.number as usize
    }
}

/// A key or none in 32 bits: the greatest number is none.
pub(crate) fn child_number(key: Option<Key>) -> u32
    ensures { child_of result ≡ key }
{
    match key {
        Some(key) => key.number,
        None => u32::MAX,
    }
}

/// The key of a number of 32 bits, if it is one.
pub(crate) fn child_key(number: u32) -> Option<Key>
    ensures { result ≡ child_of number }
{
    if (number as usize) < KEYS_MAX {
        Some(Key { number })
    } else {
        None
    }
}
