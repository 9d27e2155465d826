// The steps of a heap, each over one lent slice: what reads the keys, and what tells a place.
ghost use Rattle.std.specs.Prelude.{◌≡◌, ◌+◌, ◌-◌, ◌*◌, ◌/◌, ◌<◌, ◌≤◌, true, false, length, get_or, MatchOption, slice_index_or, slice_set};
ghost use Rattle.heap.specs.Sifting.{first_child, next_down};

use crate::key::Key;

// The handle of the key at a place.
pub(crate) fn handle_at<K: Key>(keys: &[K], i: usize) -> usize
    requires { i < length keys.now }
    ensures { (d : K) → result ≡ K.handle_of (slice_index_or keys.now i d) }
{
    keys[i].handle() as usize
}

// Tells the place of a handle's key. A place is below 1,024, so `as` loses nothing.
pub(crate) fn tell(places: &mut [u16], handle: usize, place: usize)
    requires { (handle < length places.old) × (place < 1024) }
    ensures { places.new ≡ slice_set places.old handle place }
{
    places[handle] = place as u16;
}

// Whether the key at i comes before the one at j.
fn precedes<K: Key>(keys: &[K], i: usize, j: usize) -> bool
    requires { (i < length keys.now) × (j < length keys.now) }
    ensures { (d : K) → result ≡ K.before (slice_index_or keys.now i d) (slice_index_or keys.now j d) }
{
    keys[i].comes_before(&keys[j])
}

// Where the key at `at` goes next on its way up: to its parent's place, where it comes before its parent.
pub(crate) fn next_up<K: Key>(keys: &[K], at: usize) -> Option<usize>
    requires { at < length keys.now }
    ensures { MatchOption result (0 < at → (d : K) → K.before (slice_index_or keys.now at d) (slice_index_or keys.now ((at - 1) / 2) d) ≡ false) (λ up. (0 < at) × (up ≡ (at - 1) / 2) × ((d : K) → K.before (slice_index_or keys.now at d) (slice_index_or keys.now up d) ≡ true)) }
{
    let up = at.checked_sub(1)? / 2;
    precedes(keys, at, up).then_some(up)
}

// The child of `at` that comes before the other, among the first n keys.
fn first_child<K: Key>(keys: &[K], n: usize, at: usize) -> usize
    requires { (n ≤ 1024) × (n ≤ length keys.now) × (at * 2 + 1 < n) }
    ensures bound { (result < n) × (at < result) }
    ensures is { (d : K) → result ≡ first_child K.before (λ i. get_or keys.now i d) n at }
{
    let left = at * 2 + 1;
    let right = at * 2 + 2;
    if right < n && precedes(keys, right, left) {
        right
    } else {
        left
    }
}

// Where the key at `at` goes next on its way down: to its first child's place, where that child comes before it.
pub(crate) fn next_down<K: Key>(keys: &[K], n: usize, at: usize) -> Option<usize>
    requires { (n ≤ 1024) × (n ≤ length keys.now) × (at < n) }
    ensures { MatchOption result ((d : K) → next_down K.before (λ i. get_or keys.now i d) n at ≡ at) (λ child. (at < child) × (child < n) × ((d : K) → child ≡ next_down K.before (λ i. get_or keys.now i d) n at)) }
{
    if n <= at * 2 + 1 {
        return None;
    }
    let child = first_child(keys, n, at);
    precedes(keys, child, at).then_some(child)
}
