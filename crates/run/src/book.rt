// The book: a line for each job, by the order of entry.
ghost use Rattle.std.specs.Prelude.{◌≡◌, ◌<◌, ◌≤◌, length, MatchResult, slice_index_or};
ghost use Rattle.run.specs.Lines.{unused};
ghost use Rattle.run.specs.Steps.{blank_book, book_worked, book_entered};

use crate::line::Line;
use job::MAX_JOBS;
use job::name::Name;
use refusal::Refusal;

// An array with a count beside it, since no call of a run may fail for want of memory. That it is 1,024 long is asked by the calls below
// and kept by `Run`: the definitions of runs make books, and could not make one with a fact in its type.
#[derive(Drop)]
pub struct Book {
    pub(crate) lines: [Line; MAX_JOBS],
    pub(crate) entered: usize,
}

impl Book {
    // A book with no line used.
    pub(crate) fn blank() -> Book
        ensures { result ≡ blank_book }
    {
        Book {
            lines: [Line::UNUSED; MAX_JOBS],
            entered: 0,
        }
    }

    // The line of a job that has entered; refused for another.
    pub(crate) fn line(&self, number: u32) -> Result<&Line, Refusal>
        requires { (length self.now.lines ≡ 1024) × (self.now.entered ≤ 1024) }
        ensures { MatchResult result
            (λ line. (number < self.now.entered) × (line.now ≡ slice_index_or self.now.lines number unused))
            (λ cause. (self.now.entered ≤ number) × (cause ≡ Refusal.NotHeld)) }
    {
        self.lines[0..self.entered]
            .get(number as usize)
            .ok_or(Refusal::NotHeld)
    }

    // One unit is done on a job in a tick: its line changes, and no other.
    pub(crate) fn work(&mut self, job: usize, tick: u32)
        requires { (length self.old.lines ≡ 1024) × (job < 1024) }
        ensures { self.new ≡ book_worked self.old job tick }
    {
        self.lines[job].work(tick);
    }

    // The next line is filled.
    pub(crate) fn fill(&mut self, name: Name, arrival: u32, size: u32)
        requires { (length self.old.lines ≡ 1024) × (self.old.entered < 1024) }
        ensures { self.new ≡ book_entered self.old name arrival size }
    {
        self.lines[self.entered] = Line {
            name,
            arrival,
            size,
            left: size,
            finish: 0,
        };
        self.entered += 1;
    }
}
