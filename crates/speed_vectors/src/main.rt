// speed_vectors: answers cases of ladders and policies, one to a line, for comparison with what they should answer.
//
//     listed SPEED,.. WORK LEVEL WINDOW                  a listed ladder; - where there are no speeds
//     even LOWEST STEP COUNT WORK LEVEL WINDOW           an even ladder
//     greedy TASK TIME FLOOR TOP                         the greedy policy
//     twostep SWITCH FIRST SECOND TASK TIME FLOOR TOP    a two-step policy
//
// A ladder that is refused answers its fault, and one that is made
//
//     count C full F speed S time T floor L
//
// with the level's speed, the work's time there, and its floor for the window; T and L are none where there is none.
// A policy answers
//
//     level L
#![tactic(auto)]

mod answer;
mod ladders;
mod policies;

use answer::Speed;
use cases::answer_lines;

fn main(rt: HostRuntime) -> anyhow::Result<()> {
    answer_lines::<Speed>(&rt)
}
