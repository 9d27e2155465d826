// How the jobs of a row are served.
ghost use Rattle.std.specs.Prelude.{◌≡◌, ℕ};
ghost use Rattle.queues.specs.Queues.{Rule, choice_by, ends_turn, turn_after};

use crate::row::Row;

// Whom a row is served by: it picks the next job, and sees to the turn of the front.
pub trait Service: Drop {
    // The rule that it keeps.
    ghost rule: { Self → Rule };

    // How many units the front has had in its turn; 0 where there are no turns.
    ghost turn: { Self → ℕ };

    // Begins anew, with nobody in the row.
    fn clear(&mut self)
        ensures keeps { rule self.new ≡ rule self.old }
        ensures begins { turn self.new ≡ 0 };

    // The job of a row to serve next, or none where it is empty.
    fn choose(&self, row: &Row) -> Option<u32>
        ensures { result ≡ choice_by (rule self.now) row.now };

    // The front has had one more unit of work, and so much is left of it. Answers whether it goes to the end of the row.
    fn front_served(&mut self, left: u32) -> bool
        ensures keeps { rule self.new ≡ rule self.old }
        ensures ends { result ≡ ends_turn (rule self.old) left (turn self.old) }
        ensures counts { turn self.new ≡ turn_after (rule self.old) left (turn self.old) };
}
