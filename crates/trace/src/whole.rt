// Whole traces: the call that reads every line, and what it counts.
ghost use Rattle.std.specs.Prelude.{◌≡◌, ◌+◌, ◌^◌, ◌<◌, ◌≤◌, length, Some, None, MatchResult, IsTrue, ◌↔◌};
ghost use Rattle.trace.specs.Lines.{OneList};
ghost use Rattle.trace.specs.Rules.{opens, misplaced};
ghost use Rattle.trace.specs.Tokens.{line_of};
ghost use Rattle.trace.specs.Inner.{SeenMore};
ghost use Rattle.trace.specs.Answers.{reported, LinesRead, LinesRefused, TraceRead, TraceRefused, TraceSettled};

use crate::line::LineTokens;
use crate::lines::Lines;
use crate::refused::TraceRefusal;
use job::MAX_JOBS;
use refusal::Refusal;

// The most bytes of a trace.
pub const MAX_TRACE: usize = 65_536;

// How many jobs and how many lines a trace has.
#[derive(Clone, Copy, PartialEq, Eq, Debug, Default)]
pub struct Counts {
    pub jobs: usize,
    pub lines: usize,
}

// What the lines so far come to: their counts, and the first tick that the next line may have.
#[derive(Clone, Copy, Default)]
struct Seen {
    counts: Counts,
    earliest: u32,
}

impl Seen {
    // What is seen with one line more, or why that line is refused after those seen: its tick first,
    // then its being one job too many. After a lost line the next tick is the first that may follow.
    fn with(self, line: &LineTokens) -> Result<Self, Refusal>
        requires few { self.counts.jobs ≤ 1024 }
        requires lines { self.counts.lines + 1 < 2 ^ 64 }
        requires opens { opens (line_of line.now) < 2 ^ 32 }
        ensures { MatchResult result
            (λ more. (misplaced self.earliest self.counts.jobs (line_of line.now) ≡ None) × SeenMore self (line_of line.now) more)
            (λ cause. misplaced self.earliest self.counts.jobs (line_of line.now) ≡ Some cause) }
    {
        let tick = line.tick();
        if tick < self.earliest {
            return Err(Refusal::TickOrder);
        }
        let Counts { jobs, lines } = self.counts;
        if !line.is_job() {
            return Ok(Seen {
                counts: Counts {
                    jobs,
                    lines: lines + 1,
                },
                earliest: tick + 1,
            });
        }
        if jobs >= MAX_JOBS {
            return Err(Refusal::BookFull);
        }
        Ok(Seen {
            counts: Counts {
                jobs: jobs + 1,
                lines: lines + 1,
            },
            earliest: tick,
        })
    }
}

// Reads all lines of a trace.
fn read_lines(trace: &[u8]) -> Result<Counts, TraceRefusal>
    ensures { MatchResult result (λ counts. LinesRead trace.now 0 counts) (λ e. LinesRefused trace.now 0 (reported e)) }
{
    let mut seen = Seen::default();
    for line in Lines::new(trace) {
        let (line, place) = line?;
        seen = seen
            .with(&line)
            .map_err(|cause| TraceRefusal { cause, place })?;
    }
    Ok(seen.counts)
}

// Whether there are more bytes than a trace may have.
fn is_too_long(trace: &[u8]) -> bool
    ensures { IsTrue result ↔ 65536 < length trace.now }
{
    trace.len() > MAX_TRACE
}

// Reads a whole trace: how many jobs and how many lines it has.
// Refused with the place 0 if it has more than 65,536 bytes; else at the first line that breaks a rule,
// with the place of its first byte: its form, then its size, its name, its tick, one job too many.
// It takes time in the length of the trace.
pub fn whole_trace(trace: &[u8]) -> Result<Counts, TraceRefusal>
    ensures reads { MatchResult result (λ counts. TraceRead trace.now counts) (λ e. TraceRefused trace.now (reported e)) }
    ensures unique { OneList }
    ensures settled { TraceSettled }
{
    if is_too_long(trace) {
        return Err(TraceRefusal {
            cause: Refusal::TraceTooLong,
            place: 0,
        });
    }
    read_lines(trace)
}
