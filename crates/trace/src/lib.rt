// The trace reader: tokens, lines, whole traces, and how a trace is refused.
#![tactic(auto)]

pub mod line;
pub mod lines;
pub mod refused;
mod span;
#[cfg(test)]
mod tests;
pub mod token;
pub mod whole;
