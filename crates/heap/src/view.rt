// What is read off a heap: these calls need no more than a shared loan of its memory, so that an owner can answer through `&self`.
ghost use Rattle.std.specs.Prelude.{◌≡◌, ℕ, ◌<◌, ◌≤◌, List, length, Some, slice_index_or};
ghost use Rattle.heap.specs.Held.{held, capacity, counted};
ghost use Rattle.heap.specs.InOrder.{InOrder};
ghost use Rattle.heap.specs.Answers.{First, Seated};

use crate::MAX_KEYS;
use crate::key::Key;
use crate::slots::handle_at;
use refusal::Refusal;

// The memory of a heap that holds `len` keys, lent to be read; the type says that it is in order.
#[derive(Drop)]
pub struct View<'a, K: Key> {
    pub(crate) keys: &'a [K],
    pub(crate) places: &'a [u16],
    pub(crate) len: usize,
    ghost order: { InOrder K.handle_of K.before keys.now places.now len },
}

impl<'a, K: Key> View<'a, K> {
    ghost use Rattle.heap.specs.Views.{seen};

    // The view of a heap that an owner keeps: its memory and how many keys it holds.
    pub fn over(keys: &'a [K], places: &'a [u16], len: usize) -> View<'a, K>
        requires { InOrder K.handle_of K.before keys.now places.now len }
        ensures { (result.keys.now ≡ keys.now) × (result.places.now ≡ places.now) × (result.len ≡ len) }
    {
        View { keys, places, len }
    }

    // Below which number a handle must be: the smallest of 1,024 and the two lengths. One step.
    pub fn capacity(&self) -> usize
        ensures { result ≡ capacity self.now.keys.now self.now.places.now }
    {
        self.keys.len().min(self.places.len()).min(MAX_KEYS)
    }

    // How many keys are held. One step.
    pub fn count(&self) -> usize
        ensures len { result ≡ self.now.len }
        ensures counts { result ≡ counted (seen self.now) 1024 }
    {
        count_of(self.keys, self.len)
    }

    // The handle of the key that comes before all others; refused with `Nobody` where nothing is held. One step.
    pub fn first(&self) -> Result<u32, Refusal>
        ensures { First K.handle_of K.before (seen self.now) result }
    {
        first_of(self.keys, self.len)
    }

    // The key with a handle, if it is held. One step.
    pub fn get(&self, handle: u32) -> Option<K>
        ensures { result ≡ seen self.now handle }
    {
        match self.seat(handle) {
            Ok(Some(at)) => Some(self.keys[at]),
            _ => None,
        }
    }

    // Where the key with a handle is, if it is held; refused with `OutOfRange` unless the handle is below the capacity. A told place is believed only
    // where the key there has the handle, so that places of handles that are not held may hold anything, and a new heap writes none.
    pub(crate) fn seat(&self, handle: u32) -> Result<Option<usize>, Refusal>
        ensures { Seated K.handle_of self.now.keys.now self.now.places.now self.now.len handle result }
    {
        let handle = handle as usize;
        if handle >= self.capacity() {
            return Err(Refusal::OutOfRange);
        }
        let place = usize::from(self.places[handle]);
        if place < self.len && handle_at(self.keys, place) == handle {
            return Ok(Some(place));
        }
        Ok(None)
    }
}

// For whoever has the keys and the count alone, and no places to make a view of: the calls `first` and `count`.

// The handle of the key that comes before all others of a heap in order; refused with `Nobody` where there is none. One step.
pub fn first_of<K: Key>(keys: &[K], n: usize) -> Result<u32, Refusal>
    requires { (places : List ℕ) × InOrder K.handle_of K.before keys.now places n }
    ensures { First K.handle_of K.before (held K.handle_of keys.now n) result }
{
    if n == 0 {
        return Err(Refusal::Nobody);
    }
    Ok(keys[0].handle())
}

// How many keys a heap in order holds. One step.
pub fn count_of<K: Key>(keys: &[K], n: usize) -> usize
    requires { (places : List ℕ) × InOrder K.handle_of K.before keys.now places n }
    ensures len { result ≡ n }
    ensures counts { result ≡ counted (held K.handle_of keys.now n) 1024 }
{
    keeps_count(keys, n);
    n
}

// A heap in order holds as many keys as it keeps: this is why a count need not be counted.
fn keeps_count<K: Key>(keys: &[K], n: usize)
    requires { (places : List ℕ) × InOrder K.handle_of K.before keys.now places n }
    ensures { counted (held K.handle_of keys.now n) 1024 ≡ n }
{}
