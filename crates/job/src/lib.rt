// What a job may be: the rule of sizes, the rule of names, and a name as it is kept.
#![tactic(auto)]

ghost use Rattle.std.specs.Prelude.{◌≡◌};
ghost use Rattle.job.specs.Rules.{good_size};

pub mod name;

// How many jobs there may be; they are numbered from 0. A number is a `u32` and an index a `usize`: std has no `From` between
// the two, so `as` stands where one becomes the other, always below this bound or beside a test of it.
pub const MAX_JOBS: usize = 1024;

// The most units of work that a job has.
pub const MAX_SIZE: u32 = 10_000;

// Whether a job may have this size: 1 to 10,000 units.
pub fn is_size(size: u32) -> bool
    ensures { result ≡ good_size size }
{
    matches!(size, 1..=MAX_SIZE)
}
