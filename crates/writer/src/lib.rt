// The writer of plan bytes.
#![tactic(auto)]

mod plan;
mod run;

pub use plan::{graph_size, write_graph};
