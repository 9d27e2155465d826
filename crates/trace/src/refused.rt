// A refusal of a trace: its cause and its place.
ghost use Rattle.std.specs.Prelude.{Some};
ghost use Rattle.trace.specs.Answers.{message};

use refusal::Refusal;
use std::error::Error;
use std::fmt;

// Why a trace is refused, and where: 0 for its length, else the first byte of the line.
#[derive(Clone, Copy, PartialEq, Eq, Debug)]
pub struct TraceRefusal {
    pub cause: Refusal,
    pub place: usize,
}

// As the console reports it: `refused N at P`.
impl fmt::Display for TraceRefusal {
    ghost output = { λ refused. Some (message refused) };

    fn fmt<W: fmt::Write>(&self, f: &mut fmt::Formatter<W>) -> fmt::Result {
        let number = self.cause.number();
        let place = self.place;
        write!(f, "refused {number} at {place}")
    }
}

impl Error for TraceRefusal {}
