// A ranking: the owner of a heap's memory, and its calls. All the memory that it ever needs is part of it.
ghost use Rattle.std.specs.Prelude.{◌≡◌, MatchResult};
ghost use Rattle.heap.specs.Held.{SameKeys, nothing, put, without, counted};
ghost use Rattle.heap.specs.InOrder.{InOrder};
ghost use Rattle.heap.specs.Answers.{insert_answer, change_answer, First};

use crate::key::Key;
use crate::view::View;
use crate::{MAX_KEYS, change};
use refusal::Refusal;

// The keys held are the first `len`; that they are in order stands in the type, so no call asks anything. The capacity is 1,024.
// Arrays with a count beside them, since no call may fail for want of memory. The calls go to `change` and not through an
// `IndexedHeap` over these arrays: tried, and the check does not tie an array of a type parameter to what that heap left there.
#[derive(Drop)]
pub struct Ranking<K: Key> {
    pub(crate) keys: [K; MAX_KEYS],
    pub(crate) places: [u16; MAX_KEYS],
    pub(crate) len: usize,
    ghost order: { InOrder K.handle_of K.before keys places len },
}

impl<K: Key> Ranking<K> {
    ghost use Rattle.heap.specs.Rankings.{keys_of, Unchanged};

    // A ranking that holds nothing; any key fills the memory that is not in use.
    pub fn new(unused: K) -> Ranking<K>
        ensures { SameKeys (keys_of result) nothing }
    {
        Ranking {
            keys: [unused; MAX_KEYS],
            places: [0; MAX_KEYS],
            len: 0,
        }
    }

    // What is read off the ranking.
    fn view(&self) -> View<'_, K>
        ensures { (result.keys.now ≡ self.now.keys) × (result.places.now ≡ self.now.places) × (result.len ≡ self.now.len) }
    {
        View::over(&self.keys, &self.places, self.len)
    }

    // Lets every key go. Never refused; one step.
    pub fn clear(&mut self)
        ensures { SameKeys (keys_of self.new) nothing }
    {
        self.len = 0;
    }

    // The handle of the key that comes before all others; refused with `Nobody` where nothing is held. One step.
    pub fn first(&self) -> Result<u32, Refusal>
        ensures { First K.handle_of K.before (keys_of self.now) result }
    {
        self.view().first()
    }

    // The key with a handle, if it is held. Never refused; one step.
    pub fn get(&self, handle: u32) -> Option<K>
        ensures { result ≡ keys_of self.now handle }
    {
        self.view().get(handle)
    }

    // How many keys are held. Never refused; one step.
    pub fn count(&self) -> usize
        ensures { result ≡ counted (keys_of self.now) 1024 }
    {
        self.view().count()
    }

    // Adds a key; refused with `OutOfRange` for a handle above 1,023, then with `Held` if its handle is held. O(log n).
    pub fn insert(&mut self, key: K) -> Result<(), Refusal>
        ensures answers { result ≡ insert_answer 1024 (keys_of self.old) (K.handle_of key) }
        ensures holds { MatchResult result (λ _. SameKeys (keys_of self.new) (put K.handle_of key (keys_of self.old))) (λ _. Unchanged self.old self.new) }
    {
        change::insert(&mut self.keys, &mut self.places, &mut self.len, key)
    }

    // Puts a key in the place of the one with its handle; refused with `OutOfRange` for a handle above 1,023, then with `NotHeld` if it is not held. O(log n).
    pub fn replace(&mut self, key: K) -> Result<(), Refusal>
        ensures answers { result ≡ change_answer 1024 (keys_of self.old) (K.handle_of key) }
        ensures holds { MatchResult result (λ _. SameKeys (keys_of self.new) (put K.handle_of key (keys_of self.old))) (λ _. Unchanged self.old self.new) }
    {
        change::replace(&mut self.keys, &mut self.places, self.len, key)
    }

    // Takes out the key with a handle; refused with `OutOfRange` for a handle above 1,023, then with `NotHeld` if it is not held. O(log n).
    pub fn remove(&mut self, handle: u32) -> Result<(), Refusal>
        ensures answers { result ≡ change_answer 1024 (keys_of self.old) handle }
        ensures holds { MatchResult result (λ _. SameKeys (keys_of self.new) (without handle (keys_of self.old))) (λ _. Unchanged self.old self.new) }
    {
        change::remove(&mut self.keys, &mut self.places, &mut self.len, handle)
    }
}
