// How both sides of a contest make a call, and which marks they get.
ghost use Rattle.std.specs.Prelude.{◌≢◌};
ghost use Rattle.contest.specs.Contested.{Turns};
ghost use Rattle.contest.specs.Played.{mark_of};

use crate::calls::{Call, Outcome, Round};
use crate::side::Side;
use discipline::Discipline;
use run::Lease;
use srpt::Srpt;

// Two marks other than a given one.
pub(crate) fn other_marks(mark: u16) -> (u16, u16)
    ensures { ((mark ≢ result.0)) × ((mark ≢ result.1)) }
{
    match mark {
        0 => (1, 2),
        1 => (0, 2),
        _ => (0, 1),
    }
}

// Makes the call on the run over SRPT and then on the rival, and counts in each who is present after it. The stray lease comes back.
// The two sides and the lease are the parts of a pair, each on its own: the runs stay where they are, and the lease goes through both.
pub(crate) fn turn<'a, D: Discipline>(
    srpt: &mut Side<Srpt>,
    rival: &mut Side<D>,
    stray: Lease,
    call: Call<'a>,
) -> (Round<'a>, Lease)
    requires { (stray.mark ≢ mark_of srpt.old) × (stray.mark ≢ mark_of rival.old) }
    ensures { Turns D.Discipline srpt.old rival.old stray call.entry result.0 srpt.new rival.new result.1 }
{
    let (first, stray) = srpt.play(stray, call);
    let (second, stray) = rival.play(stray, call);
    let round = Round {
        call,
        srpt: Outcome {
            answer: first,
            present: srpt.run.present(),
        },
        rival: Outcome {
            answer: second,
            present: rival.run.present(),
        },
    };
    (round, stray)
}
