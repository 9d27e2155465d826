// The calls of a run.
ghost use Rattle.std.specs.Prelude.{◌≡◌, ◌+◌, ◌-◌, ◌<◌, IfOk, IfErr, Ok, OnOk, slice_index};
ghost use Rattle.discipline.specs.Meaning.{cleared, admitted, worked};
ghost use Rattle.run.specs.declared.accounts.Call.TheVariants.{HandIn};
ghost use Rattle.run.specs.States.{Tied};
ghost use Rattle.run.specs.Steps.{Enters, Takes, Dones, Backs, Passes, done_rule, made_with};
ghost use Rattle.run.specs.Histories.{Step, handed_in};
ghost use Rattle.run.specs.Courses.{Conducts};
ghost use Rattle.run.specs.Laws.{AlwaysLawful};
ghost use Rattle.run.specs.Runs.{meaning, discipline_of, Untouched, UntouchedIfRefused, Moves};

use crate::accounts::{Accounts, Call};
use crate::book::Book;
use crate::ending::End;
use crate::lease::Lease;
use crate::run::Run;
use discipline::Discipline;
use job::name::Name;
use job::{MAX_JOBS, is_size};
use refusal::Refusal;

impl From<&Lease> for Call {
    ghost from_gives = { λ lease call. call ≡ HandIn lease.now.mark lease.now.tick lease.now.job };

    fn from(lease: &Lease) -> Call {
        Call::HandIn {
            mark: lease.mark,
            tick: lease.tick,
            job: lease.job,
        }
    }
}

impl<D: Discipline> Run<D> {
    // A run with no job yet, over a discipline that it clears first. Whatever calls follow, it is lawful.
    pub fn new(mut discipline: D, mark: u16) -> Run<D>
        ensures is { meaning D.Discipline result ≡ made_with mark }
        ensures ties { Tied (meaning D.Discipline result) }
        ensures moves { D.Discipline.moves cleared discipline (discipline_of result) }
        ensures lawful { AlwaysLawful mark }
    {
        discipline.clear();
        Run {
            discipline,
            book: Book::blank(),
            accounts: Accounts {
                mark,
                clock: 0,
                total: 0,
                most: 0,
                lease: None,
            },
        }
    }

    // A job arrives now: the next line is filled and the job admitted. Answers the line's number.
    // Refused, in this order: the size, the name, a lease that is out, a full book.
    pub fn enter(&mut self, name: &[u8], size: u32) -> Result<u32, Refusal>
        ensures does { Enters (meaning D.Discipline self.old) name.now size result (meaning D.Discipline self.new) }
        ensures moves { IfOk result (λ k. Moves D.Discipline (admitted k size) self.old self.new) }
        ensures stays { UntouchedIfRefused self.old result self.new }
    {
        if !is_size(size) {
            return Err(Refusal::Size);
        }
        let Some(name) = Name::new(name) else {
            return Err(Refusal::Name);
        };
        self.accounts.may(Call::Enter)?;
        let number = self.book.entered;
        if number >= MAX_JOBS {
            return Err(Refusal::BookFull);
        }
        let Ok(()) = self.discipline.admit(number as u32, size) else {
            unreachable()
        };
        self.book.fill(name, self.accounts.clock, size);
        Ok(number as u32)
    }

    // A lease on the discipline's choice, which `done` and `back` accept; the clock stays. Refused,
    // in this order: a lease that is out, the clock's end, nobody present.
    pub fn take(&mut self) -> Result<Lease, Refusal>
        ensures does { Takes (meaning D.Discipline self.old) result (meaning D.Discipline self.new) }
        ensures ours { IfOk result (λ lease. done_rule (meaning D.Discipline self.new) lease ≡ Ok tt) }
        ensures ends { IfOk result (λ lease. lease.tick < 16777215) }
        ensures stays { Untouched self.old self.new }
    {
        self.accounts.may(Call::Take)?;
        let Ok(job) = self.discipline.choose() else {
            return Err(Refusal::Nobody);
        };
        self.accounts.lease = Some(job);
        Ok(Lease {
            mark: self.accounts.mark,
            tick: self.accounts.clock,
            job,
        })
    }

    // The tick ends as a worked one, one unit done on the leased job. Refused, and the lease given
    // back, unless it is the one that is out. (The cause and the lease are a pair, and no type of their own: whoever is refused takes both apart.)
    pub fn done(&mut self, lease: Lease) -> Result<(), (Refusal, Lease)>
        ensures does { Dones (meaning D.Discipline self.old) lease result (meaning D.Discipline self.new) }
        ensures unspent { IfErr result (λ refused. refused.1 ≡ lease) }
        ensures moves { OnOk result (Moves D.Discipline (worked lease.job (slice_index (meaning D.Discipline self.old).present lease.job - 1)) self.old self.new) }
        ensures stays { UntouchedIfRefused self.old result self.new }
    {
        if let Err(cause) = self.accounts.may(Call::from(&lease)) {
            return Err((cause, lease));
        }
        let present = self.present();
        let Ok(_) = self.discipline.worked(lease.job) else {
            unreachable()
        };
        self.book.work(lease.job as usize, lease.tick);
        lease.spend();
        self.accounts.end(present);
        Ok(())
    }

    // The tick ends as a lost one, no unit done. Refused as `done` is.
    pub fn back(&mut self, lease: Lease) -> Result<(), (Refusal, Lease)>
        ensures does { Backs (meaning D.Discipline self.old) lease result (meaning D.Discipline self.new) }
        ensures unspent { IfErr result (λ refused. refused.1 ≡ lease) }
        ensures stays { Untouched self.old self.new }
    {
        if let Err(cause) = self.accounts.may(Call::from(&lease)) {
            return Err((cause, lease));
        }
        lease.spend();
        let present = self.present();
        self.accounts.end(present);
        Ok(())
    }

    // The tick ends so: by `done`, or by `back`.
    pub fn end(&mut self, lease: Lease, end: End) -> Result<(), (Refusal, Lease)>
        ensures does { Step (handed_in end lease result) (meaning D.Discipline self.old) (meaning D.Discipline self.new) }
        ensures answers { result ≡ done_rule (meaning D.Discipline self.old) lease }
        ensures conducts { Conducts D.Discipline (handed_in end lease result) self.old self.new }
        ensures unspent { IfErr result (λ refused. refused.1 ≡ lease) }
        ensures time { OnOk result ((meaning D.Discipline self.new).accounts.clock ≡ (meaning D.Discipline self.old).accounts.clock + 1) }
    {
        match end {
            End::Done => self.done(lease),
            End::Back => self.back(lease),
        }
    }

    // The tick ends as an empty one. Refused, in this order: a lease that is out, the clock's end,
    // somebody present.
    pub fn pass(&mut self) -> Result<(), Refusal>
        ensures does { Passes (meaning D.Discipline self.old) result (meaning D.Discipline self.new) }
        ensures stays { Untouched self.old self.new }
    {
        self.accounts.may(Call::Pass)?;
        let present = self.present();
        if present > 0 {
            return Err(Refusal::Somebody);
        }
        self.accounts.end(present);
        Ok(())
    }
}
