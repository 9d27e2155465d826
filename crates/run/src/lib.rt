// A run: jobs enter, a lease gives the right to end one tick, and a book keeps each job's line.
#![tactic(auto)]

ghost use Rattle.run.specs.Laws.{EveryRunTied};

pub mod accounts;
pub mod book;
mod calls;
pub mod ending;
pub mod lease;
pub mod line;
mod questions;
pub mod run;
#[cfg(test)]
mod tests;

use discipline::Discipline;
pub use ending::End;
pub use lease::Lease;
pub use line::Line;
pub use run::Run;

// A law: of every run the jobs present are the lines with left above 0, with that left; lines of jobs that have not entered are unused;
// and the leased job is present.
pub fn every_run_is_tied<D: Discipline>()
    ensures { EveryRunTied D.Discipline }
{}
