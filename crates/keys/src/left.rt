// The key of shortest remaining work: the left work of a job, and then its number.
ghost use Rattle.keys.specs.Orders.{number_of, sooner};
ghost use Rattle.std.proofs.Common.{rules};

use heap::Key;

#[derive(Clone, Copy, PartialEq, Eq, PartialOrd, Ord)]
pub struct LeftKey {
    pub left: u32,
    pub number: u32,
}

// The job with less left work comes first; of two with the same, the one with the smaller number.
impl Key for LeftKey {
    ghost handle_of = { number_of };

    ghost before = { sooner };

    ghost order = { Prim.search rules };

    fn handle(&self) -> u32 {
        self.number
    }

    fn comes_before(&self, other: &LeftKey) -> bool {
        self < other
    }
}
