// Runs as programs print them: what calls answer, what a run shows after them, and whole ticks.
#![tactic(auto)]

pub mod after;
pub mod answer;
pub mod figures;
pub mod ticks;

pub use after::After;
pub use answer::Answer;
pub use figures::{Figures, Summary};
pub use ticks::{TickReport, Ticked, tick};
