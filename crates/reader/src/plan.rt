ghost use Rattle.std.specs.Prelude.{◌≡◌, IfOk};
ghost use Rattle.fault.specs.Answers.{Answers, Refuses};
ghost use Rattle.fault.specs.Card.{OnCard};
ghost use Rattle.model.specs.Places.{Formed};
ghost use Rattle.model.specs.Reading.{reading};
ghost use Rattle.model.specs.Writing.{graph_bytes};
ghost use Rattle.graph.specs.Whole.{graph_of};

use crate::entries::entries;
use crate::input::Input;
use crate::limits::{MOST_CORES, MOST_DEADLINE, MOST_SEGMENTS};
use fault::Error;
use graph::Graph;
use std::alloc::Global;

// The graph of a whole run of bytes.
fn whole(heap: Global, bytes: &[u8]) -> Result<Graph, Error>
    ensures { Answers graph_of result (reading bytes.now) }
{
    let mut input = Input::new(heap, bytes);
    let cores = input.ranged(1, MOST_CORES)?;
    let deadline = input.ranged(0, MOST_DEADLINE)?;
    let many = input.ranged(1, MOST_SEGMENTS)?;
    let segments = input.segments(many)?;
    input.nothing_left()?;
    entries(segments.as_slice(), many)?;
    Ok(Graph {
        cores,
        deadline,
        segments,
    })
}

// The graph that the bytes describe, or the first fault in byte order.
pub fn read_graph(heap: Global, bytes: &[u8]) -> Result<Graph, Error>
    ensures answer { Answers graph_of result (reading bytes.now) }
    ensures formed { IfOk result (λ g. Formed (graph_of g)) }
    ensures takes { IfOk result (λ g. bytes.now ≡ graph_bytes (graph_of g)) }
    ensures carries { Refuses result OnCard }
{
    whole(heap, bytes)
}
