// First come, first served: the present job that was admitted earliest is served.
ghost use Rattle.std.specs.Prelude.{◌≡◌, [], replicate};
ghost use Rattle.queues.specs.Queues.{queue, fcfs};

use crate::row::Row;
use crate::row_discipline::RowDiscipline;
use crate::service::Service;

// The front of the row is served, and stays there until it is finished.
#[derive(Drop)]
pub struct FirstCome;

// `LastCome` has two of these bodies too: as provided methods they would have to be proved for every service.
impl Service for FirstCome {
    ghost rule = { λ _. fcfs };

    ghost turn = { λ _. 0 };

    fn clear(&mut self) {}

    fn choose(&self, row: &Row) -> Option<u32> {
        row.first()
    }

    fn front_served(&mut self, _left: u32) -> bool {
        false
    }
}

pub type Fcfs = RowDiscipline<FirstCome>;

impl Fcfs {
    ghost use Rattle.queues.specs.Disciplines.{fcfs_queue, order_of};

    // A discipline with nobody present. Never refused. All the memory that it ever needs is part of it. O(1,024).
    pub fn new() -> Fcfs
        ensures table { result.jobs.left ≡ replicate 1024 0 }
        ensures empty { fcfs_queue result ≡ queue fcfs [] 0 }
        ensures order { order_of result ≡ [] }
    {
        RowDiscipline::under(FirstCome)
    }
}
