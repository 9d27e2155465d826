// A discipline that keeps the present jobs in a row, in the order in which they were admitted, and serves them as a service says.
use crate::jobs::Jobs;
use crate::service::Service;
use discipline::Discipline;
use refusal::Refusal;

// The present jobs, and how they are served.
#[derive(Drop)]
pub struct RowDiscipline<S: Service> {
    pub(crate) jobs: Jobs,
    pub(crate) service: S,
}

impl<S: Service> RowDiscipline<S> {
    ghost use Rattle.std.specs.Prelude.{◌≡◌, [], replicate};
    ghost use Rattle.queues.specs.Queues.{queue, fronted};
    ghost use Rattle.queues.specs.Views.{queue_of};

    // Nobody is present.
    pub(crate) fn under(service: S) -> RowDiscipline<S>
        ensures table { result.jobs.left ≡ replicate 1024 0 }
        ensures empty { queue_of S.Service result ≡ queue (S.rule service) [] (S.turn service) }
    {
        RowDiscipline {
            jobs: Jobs::new(),
            service,
        }
    }

    // The front has had one more unit in its turn; where it is finished it has left the row already.
    fn end_unit(&mut self, left: u32)
        ensures table { self.new.jobs.left ≡ self.old.jobs.left }
        ensures turns { queue_of S.Service self.new ≡ fronted (S.rule self.old.service) left self.old.jobs.row (S.turn self.old.service) }
    {
        if self.service.front_served(left) {
            self.jobs.first_to_end();
        }
    }
}

impl<S: Service> Discipline for RowDiscipline<S> {
    ghost use Rattle.std.specs.Prelude.{◌≡◌};
    ghost use Rattle.queues.specs.Lasting.{rule_chosen};
    ghost use Rattle.queues.specs.Queues.{choice_of, moved};
    ghost use Rattle.queues.specs.Views.{queue_of};

    ghost present = { λ d. d.jobs.left };

    ghost choice = { λ d. choice_of (queue_of S.Service d) };

    ghost moves = { λ m d e. queue_of S.Service e ≡ moved m (queue_of S.Service d) };

    ghost sound = { λ d. record { long = d.jobs.long; fits = d.jobs.fits; chosen = rule_chosen (S.rule d.service) d.jobs.row d.jobs.left d.jobs.once } };

    // Lets everybody go. Never refused. O(1,024): the table of left work is written over, in place.
    fn clear(&mut self) {
        self.jobs.clear();
        self.service.clear();
    }

    // The job is present from now on, and comes last. Refused, in this order: a number above 1,023, a size that no
    // job has, a job that is present already. O(1).
    fn admit(&mut self, number: u32, size: u32) -> Result<(), Refusal> {
        self.jobs.admit(number, size)
    }

    // Answers the job of the row that the service picks. Refused where nobody is present. O(1).
    fn choose(&self) -> Result<u32, Refusal> {
        self.service.choose(&self.jobs.row).ok_or(Refusal::Nobody)
    }

    // One unit is done on a present job, the choice or another; answers what is left. A finished job leaves; the front
    // goes to the end where the service ends its turn. Refused, in this order: a number above 1,023, a job that is not
    // present. O(1), but O(n) where a job in the middle of the row leaves.
    fn worked(&mut self, number: u32) -> Result<u32, Refusal> {
        let front = self.jobs.row.first();
        let left = self.jobs.worked(number)?;
        if front == Some(number) {
            self.end_unit(left);
        }
        Ok(left)
    }

    // Answers the left work of a job, 0 for one that is not present. Refused: a number above 1,023. O(1).
    fn left(&self, number: u32) -> Result<u32, Refusal> {
        self.jobs.left(number)
    }

    // Answers how many jobs are present. Never refused. O(1).
    fn count(&self) -> u32 {
        self.jobs.count()
    }
}
