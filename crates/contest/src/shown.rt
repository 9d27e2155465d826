// How calls and outcomes are printed.
ghost use Rattle.std.specs.Prelude.{◌≡◌};
ghost use Rattle.contest.specs.Told.{job_named, told_of};

use crate::calls::{Call, Hand, Outcome, Reply};
use show::Answer;
use std::fmt;
use std::str::from_utf8;

// What a call that hands in a lease adds to its name.
impl fmt::Display for Hand {
    fn fmt<W: fmt::Write>(&self, f: &mut fmt::Formatter<W>) -> fmt::Result {
        f.write_str(match self {
            Hand::Own => "",
            Hand::Stray => " with a stray lease",
        })
    }
}

impl fmt::Display for Call<'_> {
    fn fmt<W: fmt::Write>(&self, f: &mut fmt::Formatter<W>) -> fmt::Result {
        match *self {
            Call::Enter { name, size } => {
                let name = from_utf8(name).unwrap_or("(no text)");
                write!(f, "enter {name} {size}")
            }
            Call::Take => f.write_str("take"),
            Call::Done(hand) => write!(f, "done{hand}"),
            Call::Back(hand) => write!(f, "back{hand}"),
            Call::Pass => f.write_str("pass"),
        }
    }
}

impl Reply {
    // The job that it names, if any.
    fn job(self) -> Option<u32>
        ensures { result ≡ job_named self }
    {
        match self {
            Reply::Entered(number) | Reply::Leased(number) => Some(number),
            Reply::Accepted => None,
        }
    }
}

impl Outcome {
    // The answer alone, as it is printed.
    pub fn told(&self) -> Answer
        ensures { result.told ≡ told_of self.now.answer }
    {
        Answer {
            told: self.answer.map(Reply::job),
        }
    }
}

// The answer, and who was then present.
impl fmt::Display for Outcome {
    fn fmt<W: fmt::Write>(&self, f: &mut fmt::Formatter<W>) -> fmt::Result {
        write!(f, "{}; present {}", self.told(), self.present)
    }
}
