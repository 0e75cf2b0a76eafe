// Cases of the test programs, one to a line of standard input.
#![tactic(auto)]

mod lines;

pub use lines::{Case, answer_lines};
