// The accounts of a run: its mark, its clock, its figures, and the lease that is out.
ghost use Rattle.std.specs.Prelude.{◌≡◌, ◌+◌, ◌^◌, ◌<◌};
ghost use Rattle.run.specs.Steps.{may_answer, ended};

use refusal::Refusal;

// The clock never passes this tick.
const LAST_TICK: u32 = 16_777_215;

// What is asked of the accounts before a call goes on.
#[derive(Clone, Copy)]
pub(crate) enum Call {
    Enter,
    Take,
    Pass,
    HandIn { mark: u16, tick: u32, job: u32 },
}

// `lease` is the job of the lease that is out, if one is.
#[derive(Clone, Copy)]
pub struct Accounts {
    pub(crate) mark: u16,
    pub(crate) clock: u32,
    pub(crate) total: u64,
    pub(crate) most: u32,
    pub(crate) lease: Option<u32>,
}

impl Accounts {
    // Whether a call may go on while the lease is as it is. A match on that and the call together: the rules of the project
    // name this form.
    pub(crate) fn may(&self, call: Call) -> Result<(), Refusal>
        ensures { result ≡ may_answer self.now call }
    {
        match (self.lease, call) {
            (Some(_), Call::Enter | Call::Take | Call::Pass) => Err(Refusal::LeaseOut),
            (None, Call::Enter) => Ok(()),
            (None, Call::Take | Call::Pass) if self.clock < LAST_TICK => Ok(()),
            (None, Call::Take | Call::Pass) => Err(Refusal::ClockEnd),
            (Some(out), Call::HandIn { mark, tick, job })
                if self.mark == mark && self.clock == tick && out == job => { Ok(()) }
            (_, Call::HandIn { .. }) => Err(Refusal::NotTheLease),
        }
    }

    // A tick ends with so many jobs present.
    pub(crate) fn end(&mut self, present: u32)
        requires { (self.old.clock < 16777215) × (self.old.total + present < 2 ^ 64) }
        ensures { self.new ≡ ended self.old present }
    {
        self.total += u64::from(present);
        self.most = self.most.max(present);
        self.clock += 1;
        self.lease = None;
    }
}
