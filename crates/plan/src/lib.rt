// The plan place: a graph with its canonical schedule and lengths, which bytes are read into.
#![tactic(auto)]

mod lengths;
mod names;
mod place;
mod reading;
mod times;
mod writing;

pub use place::Plan;
