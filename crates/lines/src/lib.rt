// The line records of a plan: the latest times of its tasks.
#![tactic(auto)]

mod canonical;
mod count;
mod fill;
mod record;
mod shift;
mod whole;

pub use count::line_count;
pub use fill::fill_lines;
pub use record::Line;
pub use whole::lines_of;
