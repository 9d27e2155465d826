// In which order the disciplines that keep a row serve, as laws over whole runs: each function's contract is a theorem, and its body computes nothing.
#![tactic(auto)]

ghost use Rattle.order.specs.Laws.{FcfsInOrder, LcfsServesLatest};
ghost use Rattle.order.specs.Turns.{FullTurnGoesBehind};

// A law: under first come, first served, a job that entered earlier finishes no later than one that entered later.
pub fn fcfs_finishes_in_order()
    ensures { FcfsInOrder }
{}

// A law: under last come, first served, a job that is served has no later-admitted job present.
pub fn lcfs_serves_latest()
    ensures { LcfsServesLatest }
{}

// A law: under round robin with quantum q, a job that is served q units in a row and is not finished goes behind everyone who is then present.
pub fn full_turn_goes_behind()
    ensures { FullTurnGoesBehind }
{}
