// The AND/OR graph that a plan's bytes describe. The fields are public: what a graph has to keep is in its type, and
// owed by whoever makes or changes one.
#![tactic(auto)]

mod parts;
mod structure;

pub use parts::{Segment, Task};
pub use structure::Graph;
