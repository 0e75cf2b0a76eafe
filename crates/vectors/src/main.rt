// vectors: answers cases of the byte layer, one to a line, for comparison with what they should answer.
//
//     number AT HEX    the number at a place of the bytes
//     plan HEX         the plan that the bytes describe, read and written again
//
// HEX is - where there are no bytes.
#![tactic(auto)]

mod answer;

use answer::Bytes;
use cases::answer_lines;

fn main(rt: HostRuntime) -> anyhow::Result<()> {
    answer_lines::<Bytes>(&rt)
}
