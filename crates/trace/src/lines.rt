// The lines of a trace, one after the other.
ghost use Rattle.std.specs.Prelude.{◌≡◌, ◌-◌, length};
ghost use Rattle.std.specs.Iterator.{at_most};
ghost use Rattle.trace.specs.Answers.{TraceRead};
ghost use Rattle.trace.specs.Walk.{GivesLine, Ahead, NoneRefused};
ghost use Rattle.trace.specs.declared.whole.Counts.{Counts};

use crate::line::{LineTokens, line_at};
use crate::refused::TraceRefusal;

// The lines of a trace from its first byte on, each with its place. The first that is refused ends them.
// It takes time in the length of the trace to go through them.
#[derive(Drop)]
pub struct Lines<'a> {
    trace: &'a [u8],
    place: usize,
}

impl<'a> Lines<'a> {
    // The lines of a trace, none of them taken yet.
    #[tactic(auto, using(crate::proofs::Ahead::whole_ahead, crate::proofs::Ahead::none_refused))]
    pub fn new(trace: &'a [u8]) -> Self
        ensures whole { result.trace.now ≡ trace.now }
        ensures start { result.place ≡ 0 }
        ensures accepted { (counts : Counts) → TraceRead trace.now counts → Ahead result }
        ensures onward { NoneRefused }
    {
        Lines { trace, place: 0 }
    }
}

impl<'a> Iterator for Lines<'a> {
    type Item = Result<(LineTokens<'a>, usize), TraceRefusal>;

    ghost next_gives = { GivesLine };

    ghost remaining = { λ s. at_most (length s.trace.now - s.place) };

    // Inlined, as the functions of `line.rt` are that read the line: so no loop over lines has to write out the tokens that it does not look at.
    #[inline(always)]
    fn next(&mut self) -> Option<Self::Item> {
        if self.place >= self.trace.len() {
            return None;
        }
        let place = self.place;
        match line_at(self.trace, place) {
            Ok((line, next)) => {
                self.place = next;
                Some(Ok((line, place)))
            }
            Err(refused) => {
                self.place = self.trace.len();
                Some(Err(refused))
            }
        }
    }
}
