// How a tick under a lease ends.
use std::fmt;

// With a unit done on the leased job, or lost. A kind, and not a closure: contracts say by it which call of the run was made.
#[derive(Clone, Copy)]
pub enum End {
    Done,
    Back,
}

impl fmt::Display for End {
    fn fmt<W: fmt::Write>(&self, f: &mut fmt::Formatter<W>) -> fmt::Result {
        f.write_str(match self {
            End::Done => "done",
            End::Back => "back",
        })
    }
}
