// The reader of plan bytes.
#![tactic(auto)]

mod entries;
mod input;
mod limits;
mod plan;
mod segments;
mod tasks;

pub use plan::read_graph;
