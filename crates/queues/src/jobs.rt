// The present jobs of a discipline that keeps them in a row.
ghost use Rattle.std.specs.Prelude.{◌≡◌, ℕ, ◌-◌, ◌≤◌, [], ◌∷◌, ◌++◌, length, replicate, slice_index, slice_set};
ghost use Rattle.refusal.specs.Answers.{if_accepted};
ghost use Rattle.discipline.specs.Meaning.{admit_answer, worked_answer, left_answer, count_present};
ghost use Rattle.queues.specs.Rows.{first_of, front_to_end, leaves, Once};

use crate::row::Row;
use job::{MAX_JOBS, is_size};
use refusal::Refusal;

// The left work of each job by its number, and the jobs that have some in a row: each once.
// A table in place, since no call may fail for want of memory.
#[derive(Drop)]
pub(crate) struct Jobs {
    pub(crate) left: [u32; MAX_JOBS],
    pub(crate) row: Row,
    ghost long: { length left ≡ 1024 },
    ghost fits: { (k : ℕ) → slice_index left k ≤ 10000 },
    ghost many: { length row ≡ count_present left },
    ghost once: { Once row left },
}

impl Jobs {
    pub(crate) fn new() -> Jobs
        ensures table { result.left ≡ replicate 1024 0 }
        ensures order { result.row ≡ [] }
    {
        Jobs {
            left: [0; MAX_JOBS],
            row: Row::new(),
        }
    }

    // Nobody is present. In place and not by a new table with a new row: the row keeps its array as it is.
    pub(crate) fn clear(&mut self)
        ensures table { self.new.left ≡ replicate 1024 0 }
        ensures order { self.new.row ≡ [] }
    {
        self.left = [0; MAX_JOBS];
        self.row.clear();
    }

    // A job that is admitted goes to the end of the row.
    pub(crate) fn admit(&mut self, number: u32, size: u32) -> Result<(), Refusal>
        ensures answers { result ≡ admit_answer self.old.left number size }
        ensures table { self.new.left ≡ if_accepted result (slice_set self.old.left number size) self.old.left }
        ensures order { self.new.row ≡ if_accepted result (self.old.row ++ number ∷ []) self.old.row }
    {
        let left = self.left(number)?;
        if !is_size(size) {
            return Err(Refusal::Size);
        }
        if left > 0 {
            return Err(Refusal::Held);
        }
        self.left[number as usize] = size;
        self.row.push(number);
        Ok(())
    }

    // A job that is finished leaves the row; the others keep their order.
    pub(crate) fn worked(&mut self, number: u32) -> Result<u32, Refusal>
        ensures answers { result ≡ worked_answer self.old.left number }
        ensures table { self.new.left ≡ if_accepted result (slice_set self.old.left number (slice_index self.old.left number - 1)) self.old.left }
        ensures order { self.new.row ≡ if_accepted result (leaves number (slice_index self.old.left number - 1) self.old.row) self.old.row }
    {
        let left = self.left(number)?.checked_sub(1).ok_or(Refusal::NotHeld)?;
        self.left[number as usize] = left;
        self.row.leave(number, left);
        Ok(left)
    }

    // The one test of a number that all calls share.
    pub(crate) fn left(&self, number: u32) -> Result<u32, Refusal>
        ensures { result ≡ left_answer self.now.left number }
    {
        self.left
            .get(number as usize)
            .copied()
            .ok_or(Refusal::OutOfRange)
    }

    // As many as stand in the row.
    pub(crate) fn count(&self) -> u32
        ensures { result ≡ count_present self.now.left }
    {
        self.row.len() as u32
    }

    // Sends the front of the row to its end.
    pub(crate) fn first_to_end(&mut self)
        ensures table { self.new.left ≡ self.old.left }
        ensures order { self.new.row ≡ front_to_end self.old.row }
    {
        self.row.first_to_end();
    }
}
