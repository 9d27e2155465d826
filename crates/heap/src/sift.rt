// Moving one key to where it belongs. Each turn exchanges two keys and tells the place of the one displaced;
// the moving key's place is told once, at its rest.
ghost use Rattle.std.specs.Prelude.{◌≡◌, ◌<◌, length, slice_index_or, slice_set};
ghost use Rattle.std.specs.List.{SwappedAt};
ghost use Rattle.heap.specs.Held.{held, SameKeys};
ghost use Rattle.heap.specs.InOrder.{InOrder};
ghost use Rattle.heap.specs.Sifting.{Sifting};

use crate::key::Key;
use crate::slots::{handle_at, next_down, next_up, tell};

// Moves the key at `at`, whose place is not told: up while it comes before its parent, then down while a child
// comes before it. O(log n).
// Keys, places and count are three parameters and no struct: its type would have to hold at each write, and here the memory is in order only at the end.
pub(crate) fn settle<K: Key>(keys: &mut [K], places: &mut [u16], n: usize, mut at: usize)
    requires { Sifting K.handle_of K.before keys.old places.old n at }
    ensures order { InOrder K.handle_of K.before keys.new places.new n }
    ensures holds { SameKeys (held K.handle_of keys.new n) (held K.handle_of keys.old n) }
{
    while let Some(up) = next_up(keys, at) {
        exchange(keys, places, at, up);
        at = up;
    }
    while let Some(child) = next_down(keys, n, at) {
        exchange(keys, places, at, child);
        at = child;
    }
    let rested = handle_at(keys, at);
    tell(places, rested, at);
}

// One turn: the key at `at` changes places with another, and the place of that one is told.
fn exchange<K: Key>(keys: &mut [K], places: &mut [u16], at: usize, with: usize)
    requires inside { (at < 1024) × (at < length keys.old) × (with < length keys.old) }
    requires tellable { (d : K) → K.handle_of (slice_index_or keys.old with d) < length places.old }
    ensures len { length keys.new ≡ length keys.old }
    ensures swapped { SwappedAt keys.old keys.new at with }
    ensures told { (d : K) → places.new ≡ slice_set places.old (K.handle_of (slice_index_or keys.new at d)) at }
{
    keys.swap(at, with);
    let displaced = handle_at(keys, at);
    tell(places, displaced, at);
}
