ghost use Rattle.std.specs.Prelude.{◌≡◌, ℕ, ◌<◌, map, length, IfOk};
ghost use Rattle.graph.specs.Whole.{graph_of};
ghost use Rattle.model.specs.Canonical.{length_of};
ghost use Rattle.model.specs.Lists.{In};
ghost use Rattle.model.specs.Times.{largest, lengths};
ghost use Rattle.plan.specs.Tables.{lengths_of};

use graph::Graph;
use schedule::Timeline;
use std::alloc::{AllocError, Global};

// The remaining length of each segment, found from the last segment back to the first.
pub(crate) fn remaining_lengths(
    heap: Global,
    graph: &Graph,
    timelines: &[Timeline],
) -> Result<Vec<u64>, AllocError>
    requires { lengths_of timelines.now ≡ map (length_of graph.now.cores) (graph_of graph.now).segments }
    ensures { IfOk result (λ v. v.items ≡ lengths graph.now.cores 0 (graph_of graph.now).segments) }
{
    let count = graph.segments.len();
    let mut remaining = vec![in heap; 0u64; count]?;
    // By number and not over the segments: a length is written at its own place and read at those of the exits.
    for s in (0..count).rev() {
        let after = largest(remaining.as_slice(), graph.segments[s].exits.as_slice());
        remaining[s] = timelines[s].length + after;
    }
    Ok(remaining)
}

// The largest of the remaining lengths at some exits, 0 where there are none.
fn largest(remaining: &[u64], exits: &[u32]) -> u64
    requires { (e : ℕ) → In e exits.now → e < length remaining.now }
    ensures { result ≡ largest remaining.now 0 exits.now }
{
    exits
        .iter()
        .map(|exit| remaining[*exit as usize])
        .max()
        .unwrap_or(0)
}
