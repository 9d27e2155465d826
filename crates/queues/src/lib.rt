// First come first served, last come first served and round robin, over one row that is held as a ring.
#![tactic(auto)]

pub mod fcfs;
mod jobs;
pub mod laws;
pub mod lcfs;
pub mod quantum;
pub mod round_robin;
pub mod row;
pub mod row_discipline;
pub mod service;

pub use fcfs::Fcfs;
pub use laws::{fcfs_keeps_order, full_turn_goes_behind, row_disciplines_follow};
pub use lcfs::Lcfs;
pub use quantum::{MAX_QUANTUM, Quantum};
pub use round_robin::RoundRobin;
pub use row_discipline::RowDiscipline;
pub use service::Service;
