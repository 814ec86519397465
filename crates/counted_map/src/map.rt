//! Keys with the number of their uses.
use crate::OutOfMemory;
use std::alloc::Global;
use std::collections::BTreeMap;
use std::collections::btree_map::Iter;
use std::marker::Model;

/// How often each key is used, seen as the keys in their order, each with its count. It holds at
/// most `2^32 - 1` keys, and no key with the count 0.
#[derive(Drop)]
pub struct CountedMap<K: Ord> {
    counts: BTreeMap<K, u32>,
}

impl<K: Ord> Model for CountedMap<K> {
    ghost use Rattle.std.specs.Prelude.{List, ℕ, ◌<◌, ◌^◌, length};
    ghost use Rattle.std.specs.Coded.{coded_list, coded×, coded_ℕ};
    ghost use Rattle.counted_map.specs.Counts.{IsCounts};

    ghost Value = { List (K × ℕ) };

    ghost coded = { coded_list (coded× K.code coded_ℕ) };

    ghost view = { λ m. m.counts.entries };

    ghost invariant = { λ m. IsCounts K.cmp m.counts.entries × (length m.counts.entries < 2 ^ 32) };
}

impl<K: Ord + Drop> CountedMap<K> {
    ghost use Rattle.std.specs.Prelude.{◌≡◌, ◌≤◌, ◌<◌, ◌-◌, ◌^◌, ◌↔◌, ◌==◌, [], length, IsTrue, OnOk, OnErr};
    ghost use Rattle.std.specs.Bool.{OnTrue, OnFalse};
    ghost use Rattle.counted_map.specs.Counts.{count_of, linked, unlinked, IsCounts};

    /// No key is used.
    pub fn new(alloc: Global) -> Self
        ensures { result ≡ [] }
    {
        CountedMap {
            counts: BTreeMap::new(alloc),
        }
    }

    /// How often the key is used.
    pub fn count(&self, key: &K) -> u32
        ensures { result ≡ count_of K.cmp self.now key.now }
    {
        self.counts.get(key).copied().unwrap_or(0)
    }

    /// How many keys are in use, and what every such map knows of its entries.
    pub fn live(&self) -> u32
        ensures size { result ≡ length self.now }
        ensures counts { IsCounts K.cmp self.now }
    {
        self.counts.len() as u32
    }

    /// Counts one more use of a key that is in use, and says whether it is. No memory is taken. Its
    /// count is below 2^32 - 1.
    pub fn increase(&mut self, key: &K) -> bool
        requires { count_of K.cmp self.old key.now < 2 ^ 32 - 1 }
        ensures found { IsTrue result ↔ (1 ≤ count_of K.cmp self.old key.now) }
        ensures more { OnTrue result (self.new ≡ linked K.cmp self.old key.now) }
        ensures same { OnFalse result (self.new ≡ self.old) }
    {
        let Some(count) = self.counts.get_mut(key) else {
            return false;
        };
        *count += 1;
        true
    }

    /// Counts the first use of a key. An error leaves the map as it was. The key is not in use, and
    /// fewer than 2^32 - 1 keys are.
    pub fn insert(&mut self, key: K) -> Result<(), OutOfMemory>
        requires unused { count_of K.cmp self.old key ≡ 0 }
        requires room { length self.old < 2 ^ 32 - 1 }
        ensures ok { OnOk result (self.new ≡ linked K.cmp self.old key) }
        ensures err { OnErr result (self.new ≡ self.old) }
    {
        self.counts.insert(key, 1)?;
        Ok(())
    }

    /// Counts one use of a key less, and drops its entry with the last. No memory is taken. The key
    /// is in use.
    pub fn decrease(&mut self, key: &K)
        requires { 1 ≤ count_of K.cmp self.old key.now }
        ensures { self.new ≡ unlinked K.cmp self.old key.now }
    {
        self.release(key);
    }

    /// Counts one use of a key less, drops its entry with the last, and says whether that was the
    /// last. No memory is taken.
    pub fn release(&mut self, key: &K) -> bool
        requires { 1 ≤ count_of K.cmp self.old key.now }
        ensures last { result ≡ (count_of K.cmp self.old key.now == 1) }
        ensures less { self.new ≡ unlinked K.cmp self.old key.now }
    {
        let Some(count) = self.counts.get_mut(key) else {
            unreachable!()
        };
        if *count > 1 {
            *count -= 1;
            false
        } else {
            self.counts.remove(key);
            true
        }
    }

    /// The keys with their counts, in the order of the keys.
    pub fn iter(&self) -> Iter<'_, K, u32>
        ensures entries { result ≡ self.now }
        ensures counts { IsCounts K.cmp self.now }
    {
        self.counts.iter()
    }
}
