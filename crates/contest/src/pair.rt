// The two sides of a contest.
ghost use Rattle.std.specs.Prelude.{◌≢◌};
ghost use Rattle.contest.specs.Played.{mark_of};

use crate::side::Side;
use discipline::Discipline;
use run::Lease;
use srpt::Srpt;

// A run over SRPT, a run over a rival, and a stray lease, which neither of them gave.
pub struct Pair<D: Discipline> {
    pub srpt: Side<Srpt>,
    pub rival: Side<D>,
    pub stray: Lease,
    ghost strange_to_srpt: { stray.mark ≢ mark_of srpt },
    ghost strange_to_rival: { stray.mark ≢ mark_of rival },
}
