// A row of at most 1,024 job numbers.
ghost use Rattle.std.specs.Prelude.{◌≡◌, ℕ, ◌-◌, ◌<◌, ◌≤◌, List, [], ◌∷◌, ◌++◌, length, take, drop, ◌==◌, slice_index, slice_set};
ghost use Rattle.std.specs.List.{position};
ghost use Rattle.queues.specs.Rows.{in_ring, IsRing, place_of, first_of, last_of, front_to_end, gapless, without, leaves, times};

use job::MAX_JOBS;
use std::marker::Model;

// The numbers stand from the place `front` on; behind the last place comes the first. It is a ring written here,
// since no call may fail for want of memory: the library's rings take their items from an allocator.
#[derive(Drop)]
pub struct Row {
    items: [u32; MAX_JOBS],
    front: usize,
    len: usize,
}

// Clauses see the numbers, from the front.
impl Model for Row {
    ghost Value = { List ℕ };

    ghost view = { λ r. in_ring r.items r.front r.len };

    ghost invariant = { λ r. IsRing r.items r.front r.len };
}

// Where the k-th number of a ring stands, or would stand, from the place `front` on.
fn place(front: usize, k: usize) -> usize
    requires within { front < 1024 }
    requires few { k ≤ 1024 }
    ensures is { result ≡ place_of front k }
    ensures low { result < 1024 }
{
    let at = front + k;
    if at < MAX_JOBS { at } else { at - MAX_JOBS }
}

// Where a number first stands in a part of the array, if it does.
fn first_place(part: &[u32], number: u32) -> Option<usize>
    ensures { result ≡ position (λ x. x == number) part.now }
{
    part.iter().position(|x| *x == number)
}

impl Row {
    pub(crate) fn new() -> Row
        ensures { result ≡ [] }
    {
        Row {
            items: [0; MAX_JOBS],
            front: 0,
            len: 0,
        }
    }

    // Takes all off; what stands in the array stays there.
    pub(crate) fn clear(&mut self)
        ensures { self.new ≡ [] }
    {
        self.front = 0;
        self.len = 0;
    }

    pub(crate) fn len(&self) -> usize
        ensures counts { result ≡ length self.now }
        ensures few { result ≤ 1024 }
    {
        self.len
    }

    // The k-th number from the front.
    fn number_at(&self, k: usize) -> u32
        requires { k < length self.now }
        ensures { result ≡ slice_index self.now k }
    {
        self.items[place(self.front, k)]
    }

    // Puts a number in the place of the k-th from the front.
    fn put_at(&mut self, k: usize, number: u32)
        requires { k < length self.old }
        ensures { self.new ≡ slice_set self.old k number }
    {
        let at = place(self.front, k);
        self.items[at] = number;
    }

    // Adds a number at the end.
    pub(crate) fn push(&mut self, number: u32)
        requires { length self.old < 1024 }
        ensures { self.new ≡ self.old ++ number ∷ [] }
    {
        let at = place(self.front, self.len);
        self.items[at] = number;
        self.len += 1;
    }

    // Takes the front off.
    fn drop_first(&mut self)
        ensures rest { self.new ≡ drop 1 self.old }
        ensures room { length self.new < 1024 }
    {
        self.front = place(self.front, 1);
        self.len = self.len.saturating_sub(1);
    }

    // Takes the last off.
    fn drop_last(&mut self)
        ensures { self.new ≡ take (length self.old - 1) self.old }
    {
        self.len = self.len.saturating_sub(1);
    }

    pub(crate) fn first(&self) -> Option<u32>
        ensures { result ≡ first_of self.now }
    {
        if self.len() == 0 {
            return None;
        }
        Some(self.number_at(0))
    }

    pub(crate) fn last(&self) -> Option<u32>
        ensures { result ≡ last_of self.now }
    {
        let last = self.len().checked_sub(1)?;
        Some(self.number_at(last))
    }

    // Sends the front to the end.
    pub(crate) fn first_to_end(&mut self)
        ensures { self.new ≡ front_to_end self.old }
    {
        if let Some(number) = self.first() {
            self.drop_first();
            self.push(number);
        }
    }

    // Where a number first stands, if it does: the part up to the end of the array is gone through first, then that from its beginning.
    fn find(&self, number: u32) -> Option<usize>
        ensures { result ≡ position (λ x. x == number) self.now }
    {
        let (behind, ahead) = self.items.split_at(self.front);
        let straight = self.len.min(ahead.len());
        if let Some(at) = first_place(&ahead[..straight], number) {
            return Some(at);
        }
        let at = first_place(&behind[..self.len - straight], number)?;
        Some(straight + at)
    }

    // Takes the number at a place out; those behind it move up by one.
    fn close(&mut self, at: usize)
        requires { at < length self.old }
        ensures { self.new ≡ gapless self.old at }
    {
        let end = self.front + self.len;
        if end > MAX_JOBS {
            self.close_round(at);
            return;
        }
        let start = self.front + at;
        self.items[start..end].rotate_left(1);
        self.len -= 1;
    }

    // The same where the places go round the end of the array, so that they are no one part of it to rotate.
    fn close_round(&mut self, at: usize)
        requires { at < length self.old }
        ensures { self.new ≡ gapless self.old at }
    {
        let len = self.len();
        for k in at + 1..len {
            let next = self.number_at(k);
            self.put_at(k - 1, next);
        }
        self.drop_last();
    }

    // Takes out a number that stands at most once, wherever it stands; the others keep their order.
    // O(1) at the front and at the end, otherwise O(n).
    fn remove(&mut self, number: u32)
        requires { times number self.old ≤ 1 }
        ensures { self.new ≡ without number self.old }
    {
        if self.first() == Some(number) {
            self.drop_first();
        } else if self.last() == Some(number) {
            self.drop_last();
        } else {
            self.remove_within(number);
        }
    }

    // Takes out a number wherever it first stands, if it does. O(n). Kept out of line, so that a unit of work on a job that stays, and one
    // that finishes the front or the end, is short code.
    #[inline(never)]
    fn remove_within(&mut self, number: u32)
        ensures { self.new ≡ without number self.old }
    {
        if let Some(at) = self.find(number) {
            self.close(at);
        }
    }

    // A job that has had a unit of work leaves if none is left. O(1) but for one in the middle that leaves.
    pub(crate) fn leave(&mut self, number: u32, left: u32)
        requires { times number self.old ≤ 1 }
        ensures { self.new ≡ leaves number left self.old }
    {
        if left == 0 {
            self.remove(number);
        }
    }
}
