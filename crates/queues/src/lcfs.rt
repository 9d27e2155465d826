// Last come, first served: the present job that was admitted latest is served. A job that comes preempts the one in
// service, which goes on from where it was once all who came later are finished.
ghost use Rattle.std.specs.Prelude.{◌≡◌, [], replicate};
ghost use Rattle.queues.specs.Queues.{queue, lcfs};

use crate::row::Row;
use crate::row_discipline::RowDiscipline;
use crate::service::Service;

// The end of the row is served.
#[derive(Drop)]
pub struct LastCome;

impl Service for LastCome {
    ghost rule = { λ _. lcfs };

    ghost turn = { λ _. 0 };

    fn clear(&mut self) {}

    fn choose(&self, row: &Row) -> Option<u32> {
        row.last()
    }

    fn front_served(&mut self, _left: u32) -> bool {
        false
    }
}

pub type Lcfs = RowDiscipline<LastCome>;

impl Lcfs {
    ghost use Rattle.queues.specs.Disciplines.{lcfs_queue};

    // A discipline with nobody present. Never refused. All the memory that it ever needs is part of it. O(1,024).
    pub fn new() -> Lcfs
        ensures table { result.jobs.left ≡ replicate 1024 0 }
        ensures empty { lcfs_queue result ≡ queue lcfs [] 0 }
    {
        RowDiscipline::under(LastCome)
    }
}
