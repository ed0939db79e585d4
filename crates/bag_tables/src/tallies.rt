//! Tallies: how many there are of each key.

ghost use Rattle.std.specs.Prelude.{◌≡◌, ◌+◌, ◌<◌, ◌^◌, OnOk, OnErr, MatchOption, Some, None};
ghost use Rattle.bag_tables.specs.Tallies.{IsFirstAfter, IsHeld, IsNoneAfter, IsShifted, IsTight, count_of};

use adlb_unit::NoMemory;
use std::alloc::Global;
use std::collections::BTreeMap;
use std::ops::Bound;

/// How many there are of each key. A key that counts 0 takes no room.
#[derive(Drop)]
pub struct Tally<K: Ord> {
    held: BTreeMap<K, u64>,
}

impl<K: Ord + Copy + Drop> Tally<K> {
    pub(crate) fn new(alloc: Global) -> Tally<K>
        ensures none { (q : K) → count_of K.cmp result q ≡ 0 }
        ensures tight { IsTight K.cmp result }
    {
        Tally {
            held: BTreeMap::new(alloc),
        }
    }

    pub(crate) fn count(&self, key: K) -> u64
        ensures { result ≡ count_of K.cmp self.now key }
    {
        match self.held.get(&key) {
            Some(n) => *n,
            None => 0,
        }
    }

    // One more of the key.
    pub(crate) fn raise(&mut self, key: K) -> Result<(), NoMemory>
        requires tight { IsTight K.cmp self.old }
        requires room { count_of K.cmp self.old key + 1 < 2 ^ 64 }
        ensures raised { OnOk result (IsShifted K.cmp self.old self.new None (Some key)) }
        ensures kept { OnErr result (IsShifted K.cmp self.old self.new None None) }
    {
        let n = self.count(key);
        match self.held.insert(key, n + 1) {
            Ok(_) => Ok(()),
            Err(_) => Err(NoMemory),
        }
    }

    // One less of the key.
    pub(crate) fn lower(&mut self, key: K)
        requires tight { IsTight K.cmp self.old }
        requires held { IsHeld K.cmp self.old (Some key) }
        ensures { IsShifted K.cmp self.old self.new (Some key) None }
    {
        if self.count(key) <= 1 {
            self.held.remove(&key);
        } else {
            self.take_one(key);
        }
    }

    fn take_one(&mut self, key: K)
        requires tight { IsTight K.cmp self.old }
        requires more { 1 < count_of K.cmp self.old key }
        ensures { IsShifted K.cmp self.old self.new (Some key) None }
    {
        if let Some(n) = self.held.get_mut(&key) {
            *n -= 1;
        }
    }

    // The first key after this one, in order, of which there are some, and how many.
    pub(crate) fn first_after(&self, low: K) -> Option<(K, u64)>
        requires { IsTight K.cmp self.now }
        ensures { MatchOption result (IsNoneAfter K.cmp self.now low) (IsFirstAfter K.cmp self.now low) }
    {
        let after = (Bound::Excluded(low), Bound::Unbounded);
        match self.held.range(after).next() {
            Some((key, n)) => Some((*key, *n)),
            None => None,
        }
    }
}
