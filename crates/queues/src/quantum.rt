// The quantum of round robin.
ghost use Rattle.std.specs.Prelude.{◌≡◌, ◌<◌, ◌≤◌, Ok};

use refusal::Refusal;

// The most units that a quantum has.
pub const MAX_QUANTUM: u32 = 10_000;

// How many units a job is served in a row: 1 to 10,000.
#[derive(Clone, Copy)]
pub struct Quantum {
    pub(crate) units: u32,
    ghost some: { 0 < units },
    ghost few: { units ≤ 10000 },
}

impl Quantum {
    ghost use Rattle.refusal.specs.Answers.{provided};
    ghost use Rattle.queues.specs.Quanta.{good_quantum, units_in};

    // A quantum of so many units. Refused: 0, and above 10,000. O(1). (`TryFrom` would say no more than this name.)
    pub fn new(units: u32) -> Result<Quantum, Refusal>
        ensures { units_in result ≡ provided (good_quantum units) Refusal.Quantum (Ok units) }
    {
        if units == 0 || units > MAX_QUANTUM {
            return Err(Refusal::Quantum);
        }
        Ok(Quantum { units })
    }
}
