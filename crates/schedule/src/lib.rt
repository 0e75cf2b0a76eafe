// The canonical schedule of every segment of a graph: list scheduling from time 0, the longest task first, with one
// queue of the ready tasks and one of the running ones.
#![tactic(auto)]

mod begins;
mod ends;
mod events;
mod followers;
mod layouts;
mod lengths;
mod parts;
mod passes;
mod queues;
mod segments;
mod starts;
mod timelines;

pub use parts::{Start, Timeline};
pub use segments::schedule;
