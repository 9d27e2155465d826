// Two runs of one list of calls, one of them over SRPT: the theorem that no order keeps fewer jobs present, and a call that shows it.
#![tactic(auto)]

ghost use Rattle.srpt.specs.contracts.srpt.SrptDiscipline.TheImpl.{ghosts};
ghost use Rattle.contest.specs.Comparison.{RunsFaithful, RunsCompared};

pub mod calls;
pub mod pair;
mod play;
pub mod rounds;
mod shown;
pub mod side;
#[cfg(test)]
mod tests;
mod turn;

pub use calls::{Answer, Call, Hand, Outcome, Reply, Round};
use discipline::Discipline;
pub use pair::Pair;
pub use rounds::contest;
pub use side::Side;

// A law: whatever calls are made of a run, over whatever discipline, it answers what its history and its own schedule have.
pub fn every_run_is_faithful<D: Discipline>()
    ensures { RunsFaithful D.Discipline }
{}

// A law: a run over SRPT and a run over whatever discipline, under the same calls, refuse the same ones, show the same clock and the same
// unfinished work, and no legal schedule has fewer jobs present than the run over SRPT.
pub fn srpt_keeps_fewest<D: Discipline>()
    ensures { RunsCompared ghosts D.Discipline }
{}
