// One priority queue in cells that the caller hands in, for every kind of entry whose order is total.
#![tactic(auto)]

mod cells;
mod heap;
mod kinds;
mod order;
mod sorting;

pub use cells::Queue;
pub use kinds::{Ready, Running};
pub use order::Entry;
pub use sorting::sort;
