// What a call answered.
ghost use Rattle.std.specs.Prelude.{◌≡◌};
ghost use Rattle.show.specs.Told.{with_number, plain};

use refusal::Refusal;
use std::fmt;

// The number of a job, or plain acceptance, or a refusal.
#[derive(Clone, Copy)]
pub struct Answer {
    pub told: Result<Option<u32>, Refusal>,
}

// The answer of a call that answers a job's number.
impl From<Result<u32, Refusal>> for Answer {
    ghost from_gives = { λ answer shown. shown.told ≡ with_number answer };

    fn from(answer: Result<u32, Refusal>) -> Answer {
        Answer {
            told: answer.map(Some),
        }
    }
}

// The answer of a call that is only accepted or refused.
impl From<Result<(), Refusal>> for Answer {
    ghost from_gives = { λ answer shown. shown.told ≡ plain answer };

    fn from(answer: Result<(), Refusal>) -> Answer {
        Answer {
            told: answer.map(|()| None),
        }
    }
}

impl fmt::Display for Answer {
    fn fmt<W: fmt::Write>(&self, f: &mut fmt::Formatter<W>) -> fmt::Result {
        match self.told {
            Ok(Some(number)) => write!(f, "job {number}"),
            Ok(None) => f.write_str("accepted"),
            Err(cause) => write!(f, "refused {}, {cause}", cause.number()),
        }
    }
}
