// Round robin: the front of the row is served until it is finished or has had a quantum, and then goes to the end.
ghost use Rattle.std.specs.Prelude.{◌≡◌, ◌<◌, [], replicate};
ghost use Rattle.queues.specs.Queues.{queue, round_robin};

use crate::quantum::Quantum;
use crate::row::Row;
use crate::row_discipline::RowDiscipline;
use crate::service::Service;

// The front of the row is served in turns of a quantum; it has had `turn` units in its turn.
#[derive(Drop)]
pub struct Turns {
    pub(crate) quantum: Quantum,
    pub(crate) turn: u32,
    ghost short: { turn < quantum.units },
}

impl Service for Turns {
    ghost rule = { λ s. round_robin s.quantum.units };

    ghost turn = { λ s. s.turn };

    fn clear(&mut self) {
        self.turn = 0;
    }

    fn choose(&self, row: &Row) -> Option<u32> {
        row.first()
    }

    fn front_served(&mut self, left: u32) -> bool {
        if left == 0 {
            self.turn = 0;
            false
        } else if self.turn + 1 == self.quantum.units {
            self.turn = 0;
            true
        } else {
            self.turn += 1;
            false
        }
    }
}

pub type RoundRobin = RowDiscipline<Turns>;

impl RoundRobin {
    ghost use Rattle.queues.specs.Disciplines.{round_queue};
    ghost use Rattle.queues.specs.Quanta.{units_of};

    // A discipline with nobody present. Never refused. All the memory that it ever needs is part of it. O(1,024).
    pub fn new(quantum: Quantum) -> RoundRobin
        ensures table { result.jobs.left ≡ replicate 1024 0 }
        ensures empty { round_queue result ≡ queue (round_robin (units_of quantum)) [] 0 }
    {
        RowDiscipline::under(Turns { quantum, turn: 0 })
    }
}
