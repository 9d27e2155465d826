// What a key is: it has a handle, by which it is found, and it comes before some keys and not before others.
ghost use Rattle.std.specs.Prelude.{◌≡◌, ℕ, Bool};
ghost use Rattle.heap.specs.Order.{Ordered};

// A kind of key. Whoever implements it owes the order law; the heap is proved from that law alone.
// An order of its own and not `Ord`, which would ask more: nothing is said of two different keys with one handle.
pub trait Key: Copy {
    ghost handle_of: { Self → ℕ };

    ghost before: { Self → Self → Bool };

    // The handle of the key.
    fn handle(&self) -> u32
        ensures { result ≡ handle_of self.now };

    // Whether the key comes before another.
    fn comes_before(&self, other: &Self) -> bool
        ensures { result ≡ before self.now other.now };

    ghost order: { Ordered handle_of before };
}
