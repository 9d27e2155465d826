// The order in which one server takes the jobs that are present.
#![tactic(auto)]

ghost use Rattle.std.specs.Prelude.{◌≡◌, ℕ, ◌-◌, List, replicate, IfOk, Option, OnOk, slice_index, slice_set};
ghost use Rattle.refusal.specs.Answers.{if_accepted, KeptIfRefused};
ghost use Rattle.discipline.specs.Meaning.{Move, cleared, admitted, worked as served, Sound, admit_answer, choose_answer, worked_answer, left_answer, count_present};

use refusal::Refusal;

// A discipline knows which jobs are present, how much work each has left, and whom to serve next.
//
// Its meaning has two parts, `present` and `choice`. Which present job the choice is, and where it
// moves after `admit` and `worked`, is free: every implementation that shows this meaning is a discipline.
pub trait Discipline {
    // The left work of each job by its number, 1,024 entries; 0 for a job that is not present.
    ghost present: { Self → List ℕ };

    // The job to serve next, or none where nobody is present.
    ghost choice: { Self → Option ℕ };

    // How an accepted call may move it, where it promises a rule of its own; by default it promises none.
    ghost moves: { Move → Self → Self → Type 0 } = { λ _ _ _. Unit {0} };

    // Lets everybody go.
    fn clear(&mut self)
        ensures empties { present self.new ≡ replicate 1024 0 }
        ensures moved { moves cleared self.old self.new };

    // Job `number` is present from now on, with `size` units left. (The two are the call's own; a pair would be made and taken apart at once.) Refused, in this order: a number
    // above 1,023, a size that no job has, a job that is present already.
    fn admit(&mut self, number: u32, size: u32) -> Result<(), Refusal>
        ensures answers { result ≡ admit_answer (present self.old) number size }
        ensures leaves { present self.new ≡ if_accepted result (slice_set (present self.old) number size) (present self.old) }
        ensures keeps { KeptIfRefused result (choice self.old) (choice self.new) }
        ensures moved { OnOk result (moves (admitted number size) self.old self.new) };

    // The choice. Refused where nobody is present.
    fn choose(&self) -> Result<u32, Refusal>
        ensures { result ≡ choose_answer (choice self.now) };

    // One unit of work is done on job `number`; without any left it is no longer present. Answers what
    // is left. Refused, in this order: a number above 1,023, a job that is not present.
    fn worked(&mut self, number: u32) -> Result<u32, Refusal>
        ensures answers { result ≡ worked_answer (present self.old) number }
        ensures leaves { present self.new ≡ if_accepted result (slice_set (present self.old) number (slice_index (present self.old) number - 1)) (present self.old) }
        ensures keeps { KeptIfRefused result (choice self.old) (choice self.new) }
        ensures moved { IfOk result (λ left. moves (served number left) self.old self.new) };

    // The left work of job `number`, 0 for one that is not present (a 0, as the rules of the project have it). Refused: a number above 1,023.
    fn left(&self, number: u32) -> Result<u32, Refusal>
        ensures { result ≡ left_answer (present self.now) number };

    // How many jobs are present.
    fn count(&self) -> u32
        ensures { result ≡ count_present (present self.now) };

    // The two parts fit each other.
    ghost sound: { (d : Self) → Sound (present d) (choice d) };
}
