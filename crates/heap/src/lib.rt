// An indexed heap over memory that is lent or owned: the first key is at hand, and every key is found by its handle.
#![tactic(auto)]

mod change;
pub mod indexed;
pub mod key;
pub mod ranking;
mod sift;
mod slots;
pub mod view;

pub use indexed::IndexedHeap;
pub use key::Key;
pub use ranking::Ranking;
pub use view::View;

// The most keys that a heap has room for, whatever memory it is over.
pub const MAX_KEYS: usize = 1024;
