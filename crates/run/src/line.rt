// A job's line of the book.
ghost use Rattle.std.specs.Prelude.{◌≡◌, ◌<◌, ◌≤◌};
ghost use Rattle.run.specs.Lines.{worked_line, sojourn_of};

use job::name::Name;

// What the book keeps of one job. `left` is the work that is not done yet; `finish` is the tick in
// which the last unit was done, and 0 until then: a 0 and no `Option`, as the rules of the project have it.
#[derive(Clone, Copy)]
pub struct Line {
    pub name: Name,
    pub arrival: u32,
    pub size: u32,
    pub left: u32,
    pub finish: u32,
}

impl Line {
    // A line that no job has yet.
    pub const UNUSED: Line = Line {
        name: Name::HYPHEN,
        arrival: 0,
        size: 1,
        left: 0,
        finish: 0,
    };

    // One unit is done on it in a tick. A line with nothing left stays as it is.
    pub(crate) fn work(&mut self, tick: u32)
        ensures { self.new ≡ worked_line self.old tick }
    {
        if self.left == 0 {
            return;
        }
        let left = self.left - 1;
        *self = Line {
            left,
            finish: if left == 0 { tick } else { 0 },
            ..*self
        };
    }

    // How many ticks a finished job was present; 0 for one that is not finished.
    pub(crate) fn sojourn(&self) -> u32
        requires { self.now.left ≡ 0 → (self.now.arrival ≤ self.now.finish) × (self.now.finish < 16777215) }
        ensures { result ≡ sojourn_of self.now }
    {
        if self.left > 0 {
            0
        } else {
            self.finish + 1 - self.arrival
        }
    }
}
