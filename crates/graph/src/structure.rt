ghost use Rattle.std.specs.Prelude.{◌≡◌, ◌^◌, ◌<◌, true, length, vec_len};
ghost use Rattle.model.specs.Formed.{well_formed};
ghost use Rattle.model.specs.Writing.{graph_bytes};
ghost use Rattle.graph.specs.Meaning.{graph_with};

use crate::parts::Segment;

// A graph, the cores to run it on, and its deadline in ticks. It is well-formed, whoever holds it.
#[derive(Drop)]
pub struct Graph {
    pub cores: u32,
    pub deadline: u32,
    pub segments: Vec<Segment>,
    ghost formed: { well_formed (graph_with cores deadline segments.items) ≡ true },
    ghost counted: { vec_len segments < 2 ^ 32 },
    ghost size_counted: { length (graph_bytes (graph_with cores deadline segments.items)) < 2 ^ 64 },
}
