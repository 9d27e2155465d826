// Shortest remaining processing time: the discipline that serves the present job with the least left work.
#![tactic(auto)]

pub mod srpt;

pub use srpt::Srpt;
