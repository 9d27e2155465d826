// The calls of a contest, and how a run takes them.
use refusal::Refusal;

// Whose lease a call hands in: the one that the run has out, or a stray one. A run that has none out is handed the stray one.
#[derive(Clone, Copy)]
pub enum Hand {
    Own,
    Stray,
}

// A call on a run: data and not a closure, since the theorem speaks of lists of calls.
#[derive(Clone, Copy)]
pub enum Call<'a> {
    Enter { name: &'a [u8], size: u32 },
    Take,
    Done(Hand),
    Back(Hand),
    Pass,
}

// What a run answers to a call that it accepts: the number of the job that entered, that of the leased job, or nothing more.
#[derive(Clone, Copy)]
pub enum Reply {
    Entered(u32),
    Leased(u32),
    Accepted,
}

// What a run answers to a call.
pub type Answer = Result<Reply, Refusal>;

// How a run took a call: its answer, and how many jobs were present after it.
#[derive(Clone, Copy)]
pub struct Outcome {
    pub answer: Answer,
    pub present: u32,
}

// A call, and how the run over SRPT and the rival took it.
#[derive(Clone, Copy)]
pub struct Round<'a> {
    pub call: Call<'a>,
    pub srpt: Outcome,
    pub rival: Outcome,
}
