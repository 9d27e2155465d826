// Laws of the disciplines that keep a row: what a contract says here is a theorem, and its body computes nothing.
ghost use Rattle.queues.specs.Laws.{RowDisciplinesFollow, ThreeFollow, FcfsKeepsOrder, FullTurnGoesBehind};

use crate::row_discipline::RowDiscipline;
use crate::service::Service;
use discipline::Discipline;

// A law: under each service a row discipline chooses and moves as the queue that is read off it; in full for FCFS, LCFS and round robin.
pub fn row_disciplines_follow<S: Service>()
    ensures each { RowDisciplinesFollow S.Service ⟦<RowDiscipline<S> as Discipline>⟧ }
    ensures three { ThreeFollow }
{}

// A law: under FCFS a job that is admitted comes last, a finished one leaves, nobody else moves, and the choice is the front.
pub fn fcfs_keeps_order()
    ensures { FcfsKeepsOrder }
{}

// A law: under round robin a job that is served a quantum in a row and is not finished goes behind everyone who is then present.
pub fn full_turn_goes_behind()
    ensures { FullTurnGoesBehind }
{}
