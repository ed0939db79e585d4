//! Lists in which items come and go anywhere, one near the other.

ghost use Rattle.std.specs.Prelude.{◌≡◌, ◌<◌, ◌≤◌, ◌+◌, ◌++◌, ◌∷◌, ◌↔◌, [], ℕ, Bool, IfSome, IsSome, OnOk, OnSome, false, length, slice_index_or, true};
ghost use Rattle.std.specs.Fn.{ComputesKey};
ghost use Rattle.std.specs.List.{AllPairs, insert, remove};
ghost use Rattle.std.specs.List.Sorted.{IsPartitionPoint, IsPartitionedBy};
ghost use Rattle.std.specs.VecDeque.{deque_capacity, deque_len};

use std::alloc::{AllocError, Global};
use std::collections::VecDeque;
use std::marker::Model;

/// How many items move at most where an item comes or goes, if it is not far from where the last ones did.
const STEPS: usize = 64;

// A list in two parts, one after the other. Where an item comes or goes far from where its part begins and ends, the parts come
// to meet nearer to its place. So where items come and go in turn, at either end and at one place between, few others move.
#[derive(Drop)]
pub struct Parted<T> {
    front: VecDeque<T>,
    back: VecDeque<T>,
    // How many items each part has room for.
    capacity: usize,
}

impl<T> Model for Parted<T> {
    ghost use Rattle.std.specs.Prelude.{◌≤◌, ◌+◌, ◌++◌};
    ghost use Rattle.work_queue.specs.inside.Parted.{Row};
    ghost use Rattle.std.specs.VecDeque.{deque_capacity, deque_len};

    ghost Value = { Row T };

    ghost view = { λ p. record { items = p.front.items ++ p.back.items; capacity = p.capacity } };

    ghost invariant = { λ p. (deque_len p.front + deque_len p.back ≤ p.capacity)
        × (p.capacity ≤ deque_capacity p.front) × (p.capacity ≤ deque_capacity p.back) };
}

impl<T> Parted<T> {
    pub(crate) fn new(alloc: Global) -> Parted<T>
        ensures items { result.items ≡ [] }
    {
        Parted {
            front: VecDeque::new(alloc),
            back: VecDeque::new(alloc),
            capacity: 0,
        }
    }

    pub(crate) fn len(&self) -> usize
        ensures { result ≡ length self.now.items }
    {
        self.front.len() + self.back.len()
    }

    // Makes room for `more` items.
    pub(crate) fn reserve(&mut self, more: usize) -> Result<(), AllocError>
        ensures items { self.new.items ≡ self.old.items }
        ensures grown { self.old.capacity ≤ self.new.capacity }
        ensures room { OnOk result (length self.new.items + more ≤ self.new.capacity) }
    {
        let Some(wanted) = self.len().checked_add(more) else {
            return Err(AllocError);
        };
        if wanted <= self.capacity {
            return Ok(());
        }
        self.front.reserve(wanted - self.front.len())?;
        self.back.reserve(wanted - self.back.len())?;
        self.capacity = self.front.capacity().min(self.back.capacity());
        Ok(())
    }

    // An item comes last.
    pub(crate) fn push(&mut self, item: T)
        requires { length self.old.items < self.old.capacity }
        ensures items { self.new.items ≡ self.old.items ++ item ∷ [] }
        ensures len { length self.new.items ≡ length self.old.items + 1 }
        ensures capacity { self.new.capacity ≡ self.old.capacity }
    {
        self.back.push_back_reserved(item);
    }

    // The item at this place, if there is one.
    pub(crate) fn get(&self, place: usize) -> Option<&T>
        ensures variant { IsSome result ↔ (place < length self.now.items) }
        ensures lookup { IfSome result (λ x. x.now ≡ slice_index_or self.now.items place x.now) }
    {
        let ahead = self.front.len();
        if place < ahead {
            self.front.get(place)
        } else {
            self.back.get(place - ahead)
        }
    }

    // How many items pass the test, if those come before the others.
    pub(crate) fn partition_point<P: FnMut(&T) -> bool>(&self, mut passes: P) -> usize
        requires { P.IsAlwaysCallable passes }
        ensures within { result ≤ length self.now.items }
        ensures partitioned { (p : T → Bool) → ComputesKey P.FnMut p passes → IsPartitionedBy p self.now.items → IsPartitionPoint (λ y. p y ≡ true) (λ y. p y ≡ false) self.now.items result }
    {
        let ahead = self.front.len();
        match self.front.back() {
            None => ahead + self.back.partition_point(passes),
            Some(last) => {
                if passes(last) {
                    ahead + self.back.partition_point(passes)
                } else {
                    self.front.partition_point(passes)
                }
            }
        }
    }

    // An item comes to this place. Where the parts meet, it is the last of the first, so that the next may follow it.
    pub(crate) fn insert(&mut self, place: usize, item: T)
        requires within { place ≤ length self.old.items }
        requires room { length self.old.items < self.old.capacity }
        ensures items { self.new.items ≡ insert self.old.items place item }
        ensures len { length self.new.items ≡ length self.old.items + 1 }
        ensures capacity { self.new.capacity ≡ self.old.capacity }
    {
        self.meet_near(place);
        let ahead = self.front.len();
        if place <= ahead {
            put_in(&mut self.front, place, item);
        } else {
            put_in(&mut self.back, place - ahead, item);
        }
    }

    // Takes out the item at this place, if there is one.
    pub(crate) fn remove(&mut self, place: usize) -> Option<T>
        ensures value { IfSome result (λ y. y ≡ slice_index_or self.old.items place y) }
        ensures items { OnSome result (self.new.items ≡ remove self.old.items place) }
        ensures variant { IsSome result ↔ (place < length self.old.items) }
        ensures len { OnSome result (length self.new.items + 1 ≡ length self.old.items) }
        ensures capacity { self.new.capacity ≡ self.old.capacity }
    {
        self.meet_near(place);
        let ahead = self.front.len();
        if place < ahead {
            self.front.remove(place)
        } else {
            self.back.remove(place - ahead)
        }
    }

    // More than `STEPS` items stand between this place and both ends of its part.
    fn is_deep(&self, place: usize) -> bool {
        let ahead = self.front.len();
        if place < ahead {
            place.min(ahead - place) > STEPS
        } else {
            let behind = place - ahead;
            behind.min(self.back.len().saturating_sub(behind)) > STEPS
        }
    }

    // If this place is deep in its part, the parts come to meet nearer to it.
    fn meet_near(&mut self, place: usize)
        ensures items { self.new.items ≡ self.old.items }
        ensures capacity { self.new.capacity ≡ self.old.capacity }
    {
        if !self.is_deep(place) {
            return;
        }
        for _ in 0..STEPS {
            let ahead = self.front.len();
            if place < ahead {
                self.pass_back();
            } else if ahead < place {
                self.pass_ahead();
            } else {
                return;
            }
        }
    }

    // The last item of the first part, if there is one, comes to the other.
    fn pass_back(&mut self)
        ensures items { self.new.items ≡ self.old.items }
        ensures capacity { self.new.capacity ≡ self.old.capacity }
    {
        if let Some(item) = self.front.pop_back() {
            self.back.push_front_reserved(item);
        }
    }

    // The first item of the last part, if there is one, comes to the other.
    fn pass_ahead(&mut self)
        ensures items { self.new.items ≡ self.old.items }
        ensures capacity { self.new.capacity ≡ self.old.capacity }
    {
        if let Some(item) = self.back.pop_front() {
            self.front.push_back_reserved(item);
        }
    }
}

impl<T: Copy> Parted<T> {
    // The item at this place.
    pub(crate) fn at(&self, place: usize) -> T
        requires { place < length self.now.items }
        ensures { result ≡ slice_index_or self.now.items place result }
    {
        match self.get(place) {
            Some(item) => *item,
            None => unreachable!(),
        }
    }
}

// An item comes to this place of a deque that has room for it.
fn put_in<T>(items: &mut VecDeque<T>, place: usize, item: T)
    requires within { place ≤ deque_len items.old }
    requires room { deque_len items.old < deque_capacity items.old }
    ensures items { items.new.items ≡ insert items.old.items place item }
    ensures len { deque_len items.new ≡ deque_len items.old + 1 }
    ensures capacity { deque_capacity items.old ≤ deque_capacity items.new }
{
    let added = items.insert(place, item);
    match added {
        Ok(()) => {}
        Err(_) => unreachable!(),
    }
}

impl Parted<u64> {
    // The place of this stamp, if it is one of these, which rise.
    pub(crate) fn place_of(&self, stamp: u64) -> usize
        requires { AllPairs (λ a b. a < b) self.now.items }
        ensures { (k d : ℕ) → k < length self.now.items → slice_index_or self.now.items k d ≡ stamp → result ≡ k }
    {
        self.partition_point(|x| *x < stamp)
    }
}
