// Adding, replacing and removing a key, over memory that is in order before each call and after it.
// These take the parts of a heap: a struct that held the two loans would have to be in order at each write through them.
ghost use Rattle.std.specs.Prelude.{◌≡◌, ℕ, ◌+◌, ◌<◌, MatchResult, slice_index_or};
ghost use Rattle.refusal.specs.Answers.{if_accepted};
ghost use Rattle.heap.specs.Held.{held, SameKeys, put, without, capacity};
ghost use Rattle.heap.specs.InOrder.{InOrder};
ghost use Rattle.heap.specs.Answers.{insert_answer, change_answer};

use crate::key::Key;
use crate::sift::settle;
use crate::view::View;
use refusal::Refusal;

pub(crate) fn insert<K: Key>(
    keys: &mut [K],
    places: &mut [u16],
    len: &mut usize,
    key: K,
) -> Result<(), Refusal>
    requires { InOrder K.handle_of K.before keys.old places.old len.old }
    ensures order { InOrder K.handle_of K.before keys.new places.new len.new }
    ensures answers { result ≡ insert_answer (capacity keys.old places.old) (held K.handle_of keys.old len.old) (K.handle_of key) }
    ensures holds { MatchResult result (λ _. SameKeys (held K.handle_of keys.new len.new) (put K.handle_of key (held K.handle_of keys.old len.old))) (λ _. (keys.new ≡ keys.old) × (places.new ≡ places.old)) }
    ensures len { len.new ≡ if_accepted result (len.old + 1) len.old }
{
    let n = *len;
    if View::over(keys, places, n).seat(key.handle())?.is_some() {
        return Err(Refusal::Held);
    }
    keys[n] = key;
    settle(keys, places, n + 1, n);
    *len = n + 1;
    Ok(())
}

pub(crate) fn replace<K: Key>(
    keys: &mut [K],
    places: &mut [u16],
    n: usize,
    key: K,
) -> Result<(), Refusal>
    requires { InOrder K.handle_of K.before keys.old places.old n }
    ensures order { InOrder K.handle_of K.before keys.new places.new n }
    ensures answers { result ≡ change_answer (capacity keys.old places.old) (held K.handle_of keys.old n) (K.handle_of key) }
    ensures holds { MatchResult result (λ _. SameKeys (held K.handle_of keys.new n) (put K.handle_of key (held K.handle_of keys.old n))) (λ _. (keys.new ≡ keys.old) × (places.new ≡ places.old)) }
{
    let seat = View::over(keys, places, n).seat(key.handle())?;
    let at = seat.ok_or(Refusal::NotHeld)?;
    keys[at] = key;
    settle(keys, places, n, at);
    Ok(())
}

pub(crate) fn remove<K: Key>(
    keys: &mut [K],
    places: &mut [u16],
    len: &mut usize,
    handle: u32,
) -> Result<(), Refusal>
    requires { InOrder K.handle_of K.before keys.old places.old len.old }
    ensures order { InOrder K.handle_of K.before keys.new places.new len.new }
    ensures answers { result ≡ change_answer (capacity keys.old places.old) (held K.handle_of keys.old len.old) handle }
    ensures holds { MatchResult result (λ _. SameKeys (held K.handle_of keys.new len.new) (without handle (held K.handle_of keys.old len.old))) (λ _. (keys.new ≡ keys.old) × (places.new ≡ places.old)) }
    ensures len { MatchResult result (λ _. len.new + 1 ≡ len.old) (λ _. len.new ≡ len.old) }
{
    let seat = View::over(keys, places, *len).seat(handle)?;
    let at = seat.ok_or(Refusal::NotHeld)?;
    *len -= 1;
    close_gap(keys, places, *len, at);
    Ok(())
}

// Of one key more than `last`, in order, moves the last to the place of the one that goes.
fn close_gap<K: Key>(keys: &mut [K], places: &mut [u16], last: usize, at: usize)
    requires order { InOrder K.handle_of K.before keys.old places.old (last + 1) }
    requires gap { at < last + 1 }
    ensures order { InOrder K.handle_of K.before keys.new places.new last }
    ensures holds { (x : ℕ) → ((d : K) → K.handle_of (slice_index_or keys.old at d) ≡ x) → SameKeys (held K.handle_of keys.new last) (without x (held K.handle_of keys.old (last + 1))) }
{
    if at != last {
        keys[at] = keys[last];
        settle(keys, places, last, at);
    }
}
