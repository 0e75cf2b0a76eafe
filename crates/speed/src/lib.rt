// What a core's clock can do, and the rules that pick a level.
#![tactic(auto)]

mod asked;
mod check;
mod even;
mod floors;
mod kinds;
mod ladder;
mod listed;
mod makers;
mod policies;
mod policy;
mod times;

pub use even::Even;
pub use floors::floor_for;
pub use ladder::Ladder;
pub use listed::Listed;
pub use policies::{Greedy, TwoStep};
pub use policy::Policy;
pub use times::{full_speed, time_at};
