// A contest: rounds of calls on a run over SRPT and a run over a rival.
ghost use Rattle.std.specs.Prelude.{◌≡◌};
ghost use Rattle.contest.specs.Contested.{Contested};

use crate::calls::{Call, Outcome, Reply, Round};
pub use crate::pair::Pair;
use crate::side::Side;
use crate::turn::{other_marks, turn};
use discipline::Discipline;
use run::Lease;
use srpt::Srpt;

impl<'a> Round<'a> {
    // A round that is yet to be made: `contest` writes both outcomes over. No `Option`, since whoever reads a round reads a made one.
    pub fn of(call: Call<'a>) -> Round<'a>
        ensures { result.call ≡ call.entry }
    {
        let outcome = Outcome {
            answer: Ok(Reply::Accepted),
            present: 0,
        };
        Round {
            call,
            srpt: outcome,
            rival: outcome,
        }
    }
}

// Makes a run over SRPT and one over the rival, and makes the call of every round on both, in order. Each round is given what the runs
// answered and how many jobs were then present. The stray lease is handed in where a call asks for one; it is given back, and each side has
// the lease that it has out at the end. Never refused, and nothing is allocated.
pub fn contest<D: Discipline>(rival: D, stray: Lease, rounds: &mut [Round]) -> Pair<D>
    ensures { Contested D.Discipline stray rounds.old rounds.new result }
{
    let (first, second) = other_marks(stray.mark());
    let mut srpt = Side::new(Srpt::new(), first);
    let mut rival = Side::new(rival, second);
    let mut stray = stray;
    for round in rounds.iter_mut() {
        let (made, back) = turn(&mut srpt, &mut rival, stray, round.call);
        stray = back;
        *round = made;
    }
    Pair { srpt, rival, stray }
}
