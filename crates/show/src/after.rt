// What a call answered, and what the run shows after it.
ghost use Rattle.std.specs.Prelude.{◌≡◌};
ghost use Rattle.refusal.specs.Answers.{if_accepted};
ghost use Rattle.run.specs.Runs.{meaning};
ghost use Rattle.run.specs.Steps.{enter_rule, enter_after, pass_answer, idled};
ghost use Rattle.show.specs.Told.{with_number, plain};
ghost use Rattle.show.specs.Shown.{figures_of};

use crate::answer::Answer;
use crate::figures::Figures;
use discipline::Discipline;
use run::Run;
use std::fmt;

#[derive(Clone, Copy)]
pub struct After {
    pub answer: Answer,
    pub figures: Figures,
}

impl After {
    // A job tries to enter.
    pub fn enter<D: Discipline>(run: &mut Run<D>, name: &str, size: u32) -> After
        ensures answers { result.answer.told ≡ with_number (enter_rule (meaning D.Discipline run.old) name.now size) }
        ensures leaves { meaning D.Discipline run.new ≡ if_accepted (enter_rule (meaning D.Discipline run.old) name.now size) (enter_after (meaning D.Discipline run.old) name.now size (meaning D.Discipline run.new).choice) (meaning D.Discipline run.old) }
        ensures figures { result.figures ≡ figures_of (meaning D.Discipline run.new) }
    {
        let answer = Answer::from(run.enter(name.as_bytes(), size));
        After {
            answer,
            figures: Figures::of(run),
        }
    }

    // The run is asked for an empty tick.
    pub fn pass<D: Discipline>(run: &mut Run<D>) -> After
        ensures answers { result.answer.told ≡ plain (pass_answer (meaning D.Discipline run.old)) }
        ensures leaves { meaning D.Discipline run.new ≡ if_accepted (pass_answer (meaning D.Discipline run.old)) (idled (meaning D.Discipline run.old)) (meaning D.Discipline run.old) }
        ensures figures { result.figures ≡ figures_of (meaning D.Discipline run.new) }
    {
        let answer = Answer::from(run.pass());
        After {
            answer,
            figures: Figures::of(run),
        }
    }
}

impl fmt::Display for After {
    fn fmt<W: fmt::Write>(&self, f: &mut fmt::Formatter<W>) -> fmt::Result {
        write!(f, "{}; {}", self.answer, self.figures)
    }
}
