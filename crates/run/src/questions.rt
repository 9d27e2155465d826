// What a run can be asked. Asking alters nothing.
ghost use Rattle.std.specs.Prelude.{◌≡◌, take};
ghost use Rattle.discipline.specs.Meaning.{count_present};
ghost use Rattle.run.specs.Lines.{longest_of};
ghost use Rattle.run.specs.Questions.{Copies, unfinished_work, sojourn_answer};
ghost use Rattle.run.specs.Runs.{meaning};

use crate::line::Line;
use crate::run::Run;
use discipline::Discipline;
use refusal::Refusal;

impl<D: Discipline> Run<D> {
    // The clock: how many ticks have ended.
    pub fn clock(&self) -> u32
        ensures { result ≡ (meaning D.Discipline self.now).accounts.clock }
    {
        self.accounts.clock
    }

    // How many jobs have entered.
    pub fn entered(&self) -> u32
        ensures { result ≡ (meaning D.Discipline self.now).book.entered }
    {
        self.book.entered as u32
    }

    // How many jobs are present.
    pub fn present(&self) -> u32
        ensures { result ≡ count_present (meaning D.Discipline self.now).present }
    {
        self.discipline.count()
    }

    // The work that is left, over every line of the book.
    pub fn unfinished(&self) -> u32
        ensures { result ≡ unfinished_work (meaning D.Discipline self.now).book }
    {
        // A `for` and no `sum`: the rules of the project name this form.
        let mut sum = 0;
        for line in &self.book.lines {
            sum += line.left;
        }
        sum
    }

    // The occupancy total: the jobs present, summed over the ticks that have ended.
    pub fn total(&self) -> u64
        ensures { result ≡ (meaning D.Discipline self.now).accounts.total }
    {
        self.accounts.total
    }

    // The most jobs that were present when a tick ended.
    pub fn most(&self) -> u32
        ensures { result ≡ (meaning D.Discipline self.now).accounts.most }
    {
        self.accounts.most
    }

    // The longest sojourn of a finished job, or 0.
    pub fn longest(&self) -> u32
        ensures { result ≡ longest_of (take (meaning D.Discipline self.now).book.entered (meaning D.Discipline self.now).book.lines) }
    {
        // A `for` and no `map`: what `sojourn` asks is known of a line by its place, which a closure is not told.
        let mut longest = 0;
        for line in &self.book.lines[0..self.book.entered] {
            longest = longest.max(line.sojourn());
        }
        longest
    }

    // The sojourn of job `number`, 0 until it is finished. Refused: a job that has not entered.
    pub fn sojourn(&self, number: u32) -> Result<u32, Refusal>
        ensures { result ≡ sojourn_answer (meaning D.Discipline self.now).book number }
    {
        Ok(self.book.line(number)?.sojourn())
    }

    // Copies the line of job `number` into one handed over, as the rules of the project have it. Refused: a job that has not entered.
    pub fn line(&self, number: u32, into: &mut Line) -> Result<(), Refusal>
        ensures { Copies (meaning D.Discipline self.now).book number into.old result into.new }
    {
        *into = *self.book.line(number)?;
        Ok(())
    }
}
