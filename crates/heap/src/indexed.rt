// The indexed heap: a struct over lent memory, and its calls.
ghost use Rattle.std.specs.Prelude.{◌≡◌, ◌+◌, MatchResult};
ghost use Rattle.refusal.specs.Answers.{if_accepted};
ghost use Rattle.heap.specs.Held.{SameKeys, nothing, put, without, capacity, counted};
ghost use Rattle.heap.specs.InOrder.{InOrder};
ghost use Rattle.heap.specs.Answers.{First};

use crate::change;
use crate::key::Key;
use crate::view::View;
use refusal::Refusal;

// The keys held are the first `len` of the lent keys, every one after its parent; the place of each is told at its handle.
// The type says so, and no call of a heap asks anything.
// The maker lends the memory and has it back when the heap ends; nothing is allocated, so no call fails for want of memory.
#[derive(Drop)]
pub struct IndexedHeap<'a, K: Key> {
    pub(crate) keys: &'a mut [K],
    pub(crate) places: &'a mut [u16],
    pub(crate) len: usize,
    ghost order: { InOrder K.handle_of K.before keys.now places.now len },
}

impl<'a, K: Key> IndexedHeap<'a, K> {
    ghost use Rattle.heap.specs.Heaps.{held_in, insert_in, change_in, Unchanged, SameMemory};

    // An empty heap over lent memory, whatever the memory holds. It writes nothing.
    pub fn new(keys: &'a mut [K], places: &'a mut [u16]) -> IndexedHeap<'a, K>
        ensures holds { SameKeys (held_in result) nothing }
        ensures same { (result.keys.now ≡ keys.old) × (result.places.now ≡ places.old) × (result.len ≡ 0) }
        ensures lender { (result.keys.ghost_name ≡ keys.entry.ghost_name) × (result.places.ghost_name ≡ places.entry.ghost_name) }
    {
        IndexedHeap {
            keys,
            places,
            len: 0,
        }
    }

    // The heap that an owner keeps: its memory and how many keys it holds, lent for some calls. The owner's type says that they are in order.
    pub fn over(keys: &'a mut [K], places: &'a mut [u16], len: usize) -> IndexedHeap<'a, K>
        requires { InOrder K.handle_of K.before keys.old places.old len }
        ensures same { (result.keys.now ≡ keys.old) × (result.places.now ≡ places.old) × (result.len ≡ len) }
        ensures lender { (result.keys.ghost_name ≡ keys.entry.ghost_name) × (result.places.ghost_name ≡ places.entry.ghost_name) }
    {
        IndexedHeap { keys, places, len }
    }

    // What is read off the heap.
    fn view(&self) -> View<'_, K>
        ensures { (result.keys.now ≡ self.now.keys.now) × (result.places.now ≡ self.now.places.now) × (result.len ≡ self.now.len) }
    {
        View::over(self.keys, self.places, self.len)
    }

    // Lets every key go. Never refused; one step.
    pub fn clear(&mut self)
        ensures holds { SameKeys (held_in self.new) nothing }
        ensures len { self.new.len ≡ 0 }
        ensures lender { SameMemory self.old self.new }
    {
        self.len = 0;
    }

    // Below which number a handle must be: the smallest of 1,024 and the two lengths. One step.
    pub fn capacity(&self) -> usize
        ensures { result ≡ capacity self.now.keys.now self.now.places.now }
    {
        self.view().capacity()
    }

    // How many keys are held. One step.
    pub fn count(&self) -> usize
        ensures len { result ≡ self.now.len }
        ensures counts { result ≡ counted (held_in self.now) 1024 }
    {
        self.view().count()
    }

    // The handle of the key that comes before all others; refused with `Nobody` where nothing is held. One step.
    pub fn first(&self) -> Result<u32, Refusal>
        ensures { First K.handle_of K.before (held_in self.now) result }
    {
        self.view().first()
    }

    // The key with a handle, if it is held. One step.
    pub fn get(&self, handle: u32) -> Option<K>
        ensures { result ≡ held_in self.now handle }
    {
        self.view().get(handle)
    }

    // Adds a key; refused with `OutOfRange` unless its handle is below the capacity, then with `Held` if its handle is held. O(log n).
    pub fn insert(&mut self, key: K) -> Result<(), Refusal>
        ensures answers { result ≡ insert_in self.old (K.handle_of key) }
        ensures holds { MatchResult result (λ _. SameKeys (held_in self.new) (put K.handle_of key (held_in self.old))) (λ _. Unchanged self.old self.new) }
        ensures len { self.new.len ≡ if_accepted result (self.old.len + 1) self.old.len }
        ensures lender { SameMemory self.old self.new }
    {
        change::insert(self.keys, self.places, &mut self.len, key)
    }

    // Puts a key in the place of the one with its handle; refused with `OutOfRange` unless the handle is below the capacity, then with `NotHeld` if it is not held. O(log n).
    pub fn replace(&mut self, key: K) -> Result<(), Refusal>
        ensures answers { result ≡ change_in self.old (K.handle_of key) }
        ensures holds { MatchResult result (λ _. SameKeys (held_in self.new) (put K.handle_of key (held_in self.old))) (λ _. Unchanged self.old self.new) }
        ensures len { self.new.len ≡ self.old.len }
        ensures lender { SameMemory self.old self.new }
    {
        change::replace(self.keys, self.places, self.len, key)
    }

    // Takes out the key with a handle; refused with `OutOfRange` unless the handle is below the capacity, then with `NotHeld` if it is not held. O(log n).
    pub fn remove(&mut self, handle: u32) -> Result<(), Refusal>
        ensures answers { result ≡ change_in self.old handle }
        ensures holds { MatchResult result (λ _. SameKeys (held_in self.new) (without handle (held_in self.old))) (λ _. Unchanged self.old self.new) }
        ensures len { MatchResult result (λ _. self.new.len + 1 ≡ self.old.len) (λ _. self.new.len ≡ self.old.len) }
        ensures lender { SameMemory self.old self.new }
    {
        change::remove(self.keys, self.places, &mut self.len, handle)
    }
}
