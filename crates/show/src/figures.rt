// What a run shows at one moment.
ghost use Rattle.std.specs.Prelude.{◌≡◌};
ghost use Rattle.run.specs.Runs.{meaning};
ghost use Rattle.show.specs.Shown.{figures_of, summary_of};

use discipline::Discipline;
use run::Run;
use std::fmt;

// The figures that change from call to call.
#[derive(Clone, Copy)]
pub struct Figures {
    pub clock: u32,
    pub present: u32,
    pub unfinished: u32,
    pub total: u64,
}

impl Figures {
    pub fn of<D: Discipline>(run: &Run<D>) -> Figures
        ensures { result ≡ figures_of (meaning D.Discipline run.now) }
    {
        Figures {
            clock: run.clock(),
            present: run.present(),
            unfinished: run.unfinished(),
            total: run.total(),
        }
    }
}

impl fmt::Display for Figures {
    fn fmt<W: fmt::Write>(&self, f: &mut fmt::Formatter<W>) -> fmt::Result {
        let Figures {
            clock,
            present,
            unfinished,
            total,
        } = self;
        write!(
            f,
            "clock {clock}, present {present}, unfinished {unfinished}, total {total}"
        )
    }
}

// The figures of a whole run.
#[derive(Clone, Copy)]
pub struct Summary {
    pub end: u32,
    pub total: u64,
    pub most: u32,
    pub longest: u32,
}

impl Summary {
    pub fn of<D: Discipline>(run: &Run<D>) -> Summary
        ensures { result ≡ summary_of (meaning D.Discipline run.now) }
    {
        Summary {
            end: run.clock(),
            total: run.total(),
            most: run.most(),
            longest: run.longest(),
        }
    }
}

impl fmt::Display for Summary {
    fn fmt<W: fmt::Write>(&self, f: &mut fmt::Formatter<W>) -> fmt::Result {
        let Summary {
            end,
            total,
            most,
            longest,
        } = self;
        write!(
            f,
            "end {end}, total {total}, most {most}, longest {longest}"
        )
    }
}
