// What the recorder's own program, in C, is told of a plan. The crate recorder_c exports it.
#![tactic(auto)]

mod judge;

pub use judge::bolgtun_judge;
