// plan_vectors: answers cases of the plan place, one to a line, for comparison with what they should answer.
//
//     place READY RUNNING HEX    the plan that the bytes describe, read into a fresh place with so many cells
//
// HEX is - where there are no bytes. A plan that is refused answers its fault, and one that is accepted
//
//     accepted needed N lengths N,.. remaining N,.. shifts N,.. starts TASK:AT:CORE,../.. lines S:T:PLACE:START:END,..
//
// where starts stand in canonical order, and / parts the segments.
#![tactic(auto)]

mod answer;
mod shown;

use answer::Place;
use cases::answer_lines;

fn main(rt: HostRuntime) -> anyhow::Result<()> {
    answer_lines::<Place>(&rt)
}
