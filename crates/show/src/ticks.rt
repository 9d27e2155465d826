// A whole tick of a run. It takes a lease and hands it in before anything is printed, so that an
// error of the output can never lose one.
ghost use Rattle.std.specs.Prelude.{◌≡◌, ◌+◌, IfOk, OnOk, OnErr};
ghost use Rattle.run.specs.Runs.{meaning};
ghost use Rattle.show.specs.Shown.{figures_of};

use crate::after::After;
use crate::answer::Answer;
use crate::figures::Figures;
use discipline::Discipline;
use refusal::Refusal;
use run::{End, Run};
use std::fmt;

// What was answered in a tick, and the figures after each answer: the lease, a job that tried to
// enter while the lease was out, and the end.
#[derive(Clone, Copy)]
pub struct Ticked {
    pub job: u32,
    pub taken: Figures,
    pub late: Option<After>,
    pub end: End,
    pub ended: Figures,
}

// A job of size 1 with the name given, if one is, tries to enter.
// A `match` and no `map`: tried, and the check does not find what a closure that takes the run along leaves of it.
fn enter_late<D: Discipline>(run: &mut Run<D>, name: Option<&str>) -> Option<After>
    ensures { (meaning D.Discipline run.new).accounts ≡ (meaning D.Discipline run.old).accounts }
{
    match name {
        Some(name) => Some(After::enter(run, name, 1)),
        None => None,
    }
}

// A tick that ends so, in which a job of size 1 and the name `late`, if one is given, tries to enter while the lease is out.
// Refused where the run gives no lease.
pub fn tick<D: Discipline>(
    run: &mut Run<D>,
    late: Option<&str>,
    end: End,
) -> Result<Ticked, Refusal>
    ensures refused { OnErr result (meaning D.Discipline run.new ≡ meaning D.Discipline run.old) }
    ensures time { OnOk result ((meaning D.Discipline run.new).accounts.clock ≡ (meaning D.Discipline run.old).accounts.clock + 1) }
    ensures shows { IfOk result (λ ticked. ticked.ended ≡ figures_of (meaning D.Discipline run.new)) }
{
    let lease = run.take()?;
    let job = lease.job();
    let taken = Figures::of(run);
    let late = enter_late(run, late);
    let Ok(()) = run.end(lease, end) else {
        unreachable()
    };
    Ok(Ticked {
        job,
        taken,
        late,
        end,
        ended: Figures::of(run),
    })
}

// A tick, or why the run gave no lease, as it is printed.
#[derive(Clone, Copy)]
pub struct TickReport {
    pub tick: Result<Ticked, Refusal>,
}

impl fmt::Display for TickReport {
    fn fmt<W: fmt::Write>(&self, f: &mut fmt::Formatter<W>) -> fmt::Result {
        match self.tick {
            Ok(ticked) => write!(f, "{ticked}"),
            Err(cause) => write!(f, "take: {}", Answer { told: Err(cause) }),
        }
    }
}

// A line for each call of the tick.
impl fmt::Display for Ticked {
    fn fmt<W: fmt::Write>(&self, f: &mut fmt::Formatter<W>) -> fmt::Result {
        writeln!(f, "take: job {}; {}", self.job, self.taken)?;
        if let Some(late) = self.late {
            writeln!(f, "enter meanwhile: {late}")?;
        }
        write!(f, "{}: accepted; {}", self.end, self.ended)
    }
}
