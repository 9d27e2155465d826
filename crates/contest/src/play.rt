// How one side of a contest makes a call.
ghost use Rattle.std.specs.Prelude.{◌≡◌, None, Err, ◌≢◌};
ghost use Rattle.run.specs.Runs.{meaning};
ghost use Rattle.run.specs.Steps.{made_with};
ghost use Rattle.run.specs.Histories.{Step, handed_in};
ghost use Rattle.contest.specs.Calls.{Enter, Take, Pass};
ghost use Rattle.contest.specs.Played.{call_of, handing_in, mark_of, Plays, HandedBack};

use crate::calls::{Answer, Call, Hand, Reply};
use crate::side::Side;
use discipline::Discipline;
use refusal::Refusal;
use run::{End, Lease, Run};

// Hands in a lease with another mark, which is refused.
fn hand_in_stray<D: Discipline>(run: &mut Run<D>, stray: Lease, end: End) -> (Refusal, Lease)
    requires { stray.mark ≢ (meaning D.Discipline run.old).accounts.mark }
    ensures does { Step (handed_in end stray (Err result)) (meaning D.Discipline run.old) (meaning D.Discipline run.new) }
    ensures unspent { result.1 ≡ stray }
{
    match run.end(stray, end) {
        Ok(()) => unreachable(),
        Err(refused) => refused,
    }
}

impl<D: Discipline> Side<D> {
    // A run with no job yet, and so no lease out.
    pub(crate) fn new(discipline: D, mark: u16) -> Side<D>
        ensures is { meaning D.Discipline result.run ≡ made_with mark }
        ensures free { result.lease ≡ None }
    {
        Side {
            run: Run::new(discipline, mark),
            lease: None,
        }
    }

    fn enter(&mut self, name: &[u8], size: u32) -> Answer
        ensures { Plays D.Discipline self.old (Enter name.now size) result self.new }
    {
        self.run.enter(name, size).map(Reply::Entered)
    }

    fn take(&mut self) -> Answer
        ensures { Plays D.Discipline self.old Take result self.new }
    {
        let lease = self.run.take()?;
        let reply = Reply::Leased(lease.job());
        let None = self.lease.replace(lease) else {
            unreachable()
        };
        Ok(reply)
    }

    fn pass(&mut self) -> Answer
        ensures { Plays D.Discipline self.old Pass result self.new }
    {
        self.run.pass().map(|()| Reply::Accepted)
    }

    // Hands in the run's own lease, or the stray one. The run stays where it is and only the leases move: a run is large. (Two arms have
    // one body: their proofs differ, in why the stray one is handed in.)
    fn end_tick(&mut self, stray: Lease, end: End, hand: Hand) -> (Answer, Lease)
        requires { stray.mark ≢ mark_of self.old }
        ensures plays { Plays D.Discipline self.old (handing_in end hand) result.0 self.new }
        ensures unspent { result.1 ≡ stray }
    {
        match hand {
            Hand::Own => match self.lease.take() {
                Some(own) => match self.run.end(own, end) {
                    Ok(()) => (Ok(Reply::Accepted), stray),
                    Err((cause, own)) => {
                        let None = self.lease.replace(own) else {
                            unreachable()
                        };
                        (Err(cause), stray)
                    }
                },
                None => {
                    let (cause, stray) = hand_in_stray(&mut self.run, stray, end);
                    (Err(cause), stray)
                }
            },
            Hand::Stray => {
                let (cause, stray) = hand_in_stray(&mut self.run, stray, end);
                (Err(cause), stray)
            }
        }
    }

    // Makes a call, with a stray lease at hand, which comes back. That its mark is not the run's is asked of the caller, here, in `turn`
    // above and in the two functions below: it is about two values, of which neither owns the other. The type of a pair, which owns both, says it.
    pub(crate) fn play(&mut self, stray: Lease, call: Call) -> (Answer, Lease)
        requires { stray.mark ≢ mark_of self.old }
        ensures plays { Plays D.Discipline self.old (call_of call.entry) result.0 self.new }
        ensures unspent { result.1 ≡ stray }
    {
        match call {
            Call::Enter { name, size } => (self.enter(name, size), stray),
            Call::Take => (self.take(), stray),
            Call::Done(hand) => self.end_tick(stray, End::Done, hand),
            Call::Back(hand) => self.end_tick(stray, End::Back, hand),
            Call::Pass => (self.pass(), stray),
        }
    }

    // Hands back the lease that is out, if any, as a lost tick. Never refused.
    pub fn hand_back(self) -> Run<D>
        ensures { HandedBack D.Discipline self result }
    {
        let Side { mut run, lease } = self;
        if let Some(lease) = lease {
            let Ok(()) = run.back(lease) else {
                unreachable()
            };
        }
        run
    }
}
