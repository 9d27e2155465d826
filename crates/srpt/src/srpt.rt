// SRPT as a discipline: it chooses the present job with the least left work, and of equals the one with the smallest number.
ghost use Rattle.std.specs.Prelude.{◌≡◌, ℕ, ◌-◌, ◌<◌, ◌≤◌, true, replicate, if◌then◌else◌, Ok, ◌==◌, nat_eq, nat_le, slice_index, slice_set};
ghost use Rattle.refusal.specs.declared.Refusal.TheVariants.{Held, OutOfRange};
ghost use Rattle.refusal.specs.Answers.{provided, if_accepted};
ghost use Rattle.job.specs.Rules.{good_size};
ghost use Rattle.discipline.specs.Meaning.{choose_answer, count_present};
ghost use Rattle.heap.specs.Held.{SameKeys, nothing};
ghost use Rattle.heap.specs.Rankings.{keys_of};
ghost use Rattle.srpt.specs.Ranked.{sized};

use discipline::Discipline;
use heap::Ranking;
use job::{MAX_JOBS, is_size};
use keys::left::LeftKey;
use refusal::Refusal;

// The present jobs, each with its left work, 1 to 10,000 units, in a ranking.
#[derive(Drop)]
pub struct Srpt {
    pub(crate) ranking: Ranking<LeftKey>,
    ghost working: { (j : ℕ) → sized (keys_of ranking j) ≡ true },
}

impl Srpt {
    ghost use Rattle.srpt.specs.Lefts.{left_in, lefts_of};
    ghost use Rattle.srpt.specs.Choice.{least};

    // SRPT with nobody present. Never refused; all the memory that it ever needs is part of it.
    #[tactic(auto, using(crate::specs::Jobs::nobody_held))]
    pub fn new() -> Srpt
        ensures nobody { lefts_of result ≡ replicate 1024 0 }
    {
        let ranking = Ranking::new(LeftKey { left: 0, number: 0 });
        Srpt { ranking }
    }

    // A job that is not present gets this key, with its size as its left work.
    fn enter(&mut self, key: LeftKey) -> Result<(), Refusal>
        requires { (key.number < 1024) × (good_size key.left ≡ true) }
        ensures answers { result ≡ provided (slice_index (lefts_of self.old) key.number == 0) Held (Ok tt) }
        ensures leaves { lefts_of self.new ≡ if_accepted result (slice_set (lefts_of self.old) key.number key.left) (lefts_of self.old) }
    {
        self.ranking.insert(key)
    }

    // One unit of the job with this key is done.
    #[tactic(auto, using(crate::specs::Jobs::left_of_key, crate::specs::Tables::table_set))]
    fn serve(&mut self, key: LeftKey)
        requires { (key.number < 1024) × (0 < key.left) × (slice_index (lefts_of self.old) key.number ≡ key.left) }
        ensures { lefts_of self.new ≡ slice_set (lefts_of self.old) key.number (key.left - 1) }
    {
        self.tell(key);
    }

    // (Apart from `serve`: joined with it, the search comes too near its bounds.)
    // Tells the ranking of that unit: the job's key has one unit less, and a job without any left has no key.
    fn tell(&mut self, key: LeftKey)
        requires { (key.number < 1024) × (0 < key.left) × (left_in (keys_of self.old.ranking key.number) ≡ key.left) }
        ensures { (j : ℕ) → left_in (keys_of self.new.ranking j) ≡ (if nat_eq j key.number then key.left - 1 else left_in (keys_of self.old.ranking j)) }
    {
        let LeftKey { left, number } = key;
        let rest = left - 1;
        let _ = if rest == 0 {
            self.ranking.remove(number)
        } else {
            self.ranking.replace(LeftKey { left: rest, number })
        };
    }

    // The left work of a job, 0 for one that is not present.
    #[tactic(auto, using(crate::specs::Jobs::left_of_key))]
    fn left_at(&self, number: u32) -> u32
        ensures { result ≡ slice_index (lefts_of self.now) number }
    {
        self.ranking.get(number).map_or(0, |key| key.left)
    }
}

// The one test of a number that all calls share.
fn in_range(number: u32) -> Result<(), Refusal>
    ensures { result ≡ provided (nat_le number 1023) OutOfRange (Ok tt) }
{
    if (number as usize) < MAX_JOBS {
        Ok(())
    } else {
        Err(Refusal::OutOfRange)
    }
}

impl Discipline for Srpt {
    ghost use Rattle.srpt.specs.Lefts.{lefts_of};
    ghost use Rattle.srpt.specs.Choice.{least};
    ghost use Rattle.srpt.specs.Jobs.{least_sound};

    ghost present = { λ d. lefts_of d };

    ghost choice = { λ d. least (lefts_of d) };

    ghost sound = { least_sound };

    // Lets everybody go. Never refused; one step.
    #[tactic(auto, using(crate::specs::Jobs::nobody_held))]
    fn clear(&mut self) {
        self.ranking.clear();
    }

    // Job `number` is present from now on, with `size` units left. Refused, in this order: with `OutOfRange` for a number
    // above 1,023, with `Size` for a size that no job has, with `Held` for a job that is present already. O(log n).
    fn admit(&mut self, number: u32, size: u32) -> Result<(), Refusal> {
        in_range(number)?;
        if !is_size(size) {
            return Err(Refusal::Size);
        }
        self.enter(LeftKey { left: size, number })
    }

    // The present job with the least left work, the smallest number of equals. Refused with `Nobody` where nobody is present. One step.
    #[tactic(auto, using(crate::specs::Choosing::first_chosen, crate::specs::Jobs::left_of_key, crate::specs::Numbers::own_number))]
    fn choose(&self) -> Result<u32, Refusal> {
        self.ranking.first()
    }

    // One unit of work is done on job `number`; answers what is left, and without any left the job is no longer present.
    // Refused, in this order: with `OutOfRange` for a number above 1,023, with `NotHeld` for a job that is not present. O(log n).
    #[tactic(auto, using(crate::specs::Jobs::left_of_key, crate::specs::Numbers::own_number))]
    fn worked(&mut self, number: u32) -> Result<u32, Refusal> {
        in_range(number)?;
        let key = self.ranking.get(number).ok_or(Refusal::NotHeld)?;
        self.serve(key);
        Ok(key.left - 1)
    }

    // The left work of job `number`, 0 for one that is not present. Refused with `OutOfRange` for a number above 1,023. One step.
    fn left(&self, number: u32) -> Result<u32, Refusal> {
        in_range(number)?;
        Ok(self.left_at(number))
    }

    // How many jobs are present. Never refused; one step.
    #[tactic(auto, using(crate::specs::Jobs::present_counted, crate::specs::Jobs::present_few))]
    fn count(&self) -> u32 {
        self.ranking.count() as u32
    }
}
