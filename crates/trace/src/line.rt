// Lines: the tokens of a line, and the call that reads the line at a place.
// The functions that hand the tokens up, that call too, are inlined into whoever reads a line, and so is the `next` of `Lines`: four
// tokens are a large value, most readers look at one or two of them, and what nobody looks at need not be written out.
ghost use Rattle.std.specs.Prelude.{◌≡◌, ℕ, List, Some, None, MatchOption, MatchResult, ◌≢◌};
ghost use Rattle.trace.specs.Lines.{Line, job, Formed, fields, spelled, Stands, OneLine, ByDigits};
ghost use Rattle.trace.specs.Rules.{tick as line_tick, is_job, fault};
ghost use Rattle.trace.specs.Tokens.{line_of};
ghost use Rattle.trace.specs.Inner.{ReadsFields, ReadsTokens};
ghost use Rattle.trace.specs.Answers.{reported, LineFound, LineRead, LineRefused, LineSettled, LineByLine};

use crate::refused::TraceRefusal;
use crate::span::Span;
use crate::token::PlacedToken;
use refusal::Refusal;

// The tokens of a line, each with its place.
#[derive(Clone, Copy)]
pub enum LineTokens<'a> {
    // `job TICK SIZE NAME`
    Job {
        keyword: PlacedToken<'a>,
        tick: PlacedToken<'a>,
        size: PlacedToken<'a>,
        name: PlacedToken<'a>,
    },
    // `lost TICK`
    Lost {
        keyword: PlacedToken<'a>,
        tick: PlacedToken<'a>,
    },
}

impl LineTokens<'_> {
    // The tick of the line.
    pub fn tick(&self) -> u32
        ensures { result ≡ line_tick (line_of self.now) }
    {
        let (LineTokens::Job { tick, .. } | LineTokens::Lost { tick, .. }) = self;
        tick.value()
    }

    // Whether the line is a job.
    pub fn is_job(&self) -> bool
        ensures { result ≡ is_job (line_of self.now) }
    {
        matches!(self, LineTokens::Job { .. })
    }

    // Whether the line may say what it says, or why it is refused: for its size first, then for its name.
    fn judge(&self) -> Result<(), Refusal>
        ensures { MatchResult result (λ _. fault (line_of self.now) ≡ None) (λ cause. fault (line_of self.now) ≡ Some cause) }
    {
        let LineTokens::Job { size, name, .. } = self else {
            return Ok(());
        };
        if !job::is_size(size.value()) {
            return Err(Refusal::Size);
        }
        if !job::name::is_name(name.bytes()) {
            return Err(Refusal::Name);
        }
        Ok(())
    }

    // The same judgement, with the place of the line in its refusal.
    fn judge_at(&self, place: usize) -> Result<(), TraceRefusal>
        ensures { MatchResult result (λ _. fault (line_of self.now) ≡ None) (λ e. (fault (line_of self.now) ≡ Some e.cause) × (e.place ≡ place)) }
    {
        self.judge().map_err(|cause| TraceRefusal { cause, place })
    }
}

// The tick, the size and the name of a job line, from what lies behind its keyword and space.
// The fields are read with `let .. else` and no `?`, since the rules of the project name this form. Each is read before the next is
// cut off: a line that is refused for its first field is searched no further.
#[inline(always)]
fn job_fields<'a>(rest: Span<'a>) -> Option<(PlacedToken<'a>, PlacedToken<'a>, PlacedToken<'a>)>
    ensures { MatchOption result ((t s : ℕ) (n : List ℕ) → Formed (job t s n) → rest.entry.bytes.now ≢ fields t s n) (λ x. ReadsFields rest.entry.bytes.now rest.entry.place x.0 x.1 x.2) }
{
    let Some((tick, rest)) = rest.cut(b' ') else {
        return None;
    };
    let Some(tick) = tick.number() else {
        return None;
    };
    let Some((size, name)) = rest.cut(b' ') else {
        return None;
    };
    let Some(size) = size.number() else {
        return None;
    };
    let Some(name) = name.word() else {
        return None;
    };
    Some((tick, size, name))
}

// The tokens of a line, which is given without its LF.
// Slice patterns take its first bytes, since the rules of the project name this form.
#[inline(always)]
#[tactic(auto, using(crate::proofs::Reading::job_front, crate::proofs::Reading::lost_front))]
fn tokens<'a>(line: Span<'a>) -> Option<LineTokens<'a>>
    ensures { MatchOption result ((l : Line) → Formed l → line.entry.bytes.now ≢ spelled l) (λ ts. ReadsTokens line.entry.bytes.now line.entry.place ts) }
{
    let place = line.place;
    match line.bytes {
        [b'j', b'o', b'b', b' ', bytes @ ..] => {
            let keyword = line.front(3).token();
            let rest = Span {
                bytes,
                place: place + 4,
            };
            let Some((tick, size, name)) = job_fields(rest) else {
                return None;
            };
            Some(LineTokens::Job {
                keyword,
                tick,
                size,
                name,
            })
        }
        [b'l', b'o', b's', b't', b' ', bytes @ ..] => {
            let keyword = line.front(4).token();
            let rest = Span {
                bytes,
                place: place + 5,
            };
            let Some(tick) = rest.number() else {
                return None;
            };
            Some(LineTokens::Lost { keyword, tick })
        }
        _ => None,
    }
}

// The tokens of the line that stands at a place, whatever it says, and the place of the next one. Trace and place come as two, as
// the public call has them: that nothing stands at the place is one of its answers, and a span would say that something does.
#[inline(always)]
fn line_found<'a>(trace: &'a [u8], place: usize) -> Option<(LineTokens<'a>, usize)>
    ensures { MatchOption result ((l : Line) → Stands trace.now place l → ⊥) (λ x. LineFound trace.now place x.0 x.1) }
{
    let bytes = trace.get(place..)?;
    let (line, rest) = Span { bytes, place }.cut(b'\n')?;
    Some((tokens(line)?, rest.place))
}

// The line that stands at a place, unless it is refused for what it says.
#[inline(always)]
fn read_line<'a>(trace: &'a [u8], place: usize) -> Result<(LineTokens<'a>, usize), TraceRefusal>
    ensures { MatchResult result (λ x. LineRead trace.now place x.0 x.1) (λ e. LineRefused trace.now place (reported e)) }
{
    let (line, next) = line_found(trace, place).ok_or(TraceRefusal {
        cause: Refusal::LineForm,
        place,
    })?;
    line.judge_at(place)?;
    Ok((line, next))
}

// Reads the line from the byte at `place` to the next LF: its tokens, and the place of the next line.
// Refused, with the place given, where no line stands there, then for its size, then for its name.
// It takes time in the length of the line.
#[inline(always)]
pub fn line_at<'a>(trace: &'a [u8], place: usize) -> Result<(LineTokens<'a>, usize), TraceRefusal>
    ensures reads { MatchResult result (λ x. LineRead trace.now place x.0 x.1) (λ e. LineRefused trace.now place (reported e)) }
    ensures digits { ByDigits }
    ensures unique { OneLine }
    ensures settled { LineSettled }
    ensures onward { LineByLine }
{
    read_line(trace, place)
}
