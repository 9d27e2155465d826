// One side of a contest: a run, and the lease that it has out.
ghost use Rattle.std.specs.Prelude.{◌≡◌, true};
ghost use Rattle.contest.specs.Carried.{carries};

use discipline::Discipline;
use run::{Lease, Run};

// The lease is the one that the run has out, if any: whoever holds a side knows it.
pub struct Side<D: Discipline> {
    pub run: Run<D>,
    pub lease: Option<Lease>,
    ghost carried: { carries run.accounts lease ≡ true },
}
