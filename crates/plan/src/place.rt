ghost use Rattle.std.specs.Prelude.{◌≡◌, ◌≤◌, map};
ghost use Rattle.graph.specs.Whole.{graph_of};
ghost use Rattle.model.specs.Times.{lengths, needed};
ghost use Rattle.schedule.specs.Meaning.{timeline_of, planned};
ghost use Rattle.std.proofs.Props.{props};

use graph::Graph;
use schedule::Timeline;

// A plan: a graph, the canonical schedule of each segment, and each segment's remaining length. It is accepted, whoever
// holds it: the tables are the graph's, and the needed length is within the deadline. The remaining lengths are a run
// beside the timelines and not in them, since each is found from those of later segments, once all timelines are there.
#[derive(Drop)]
pub struct Plan {
    pub graph: Graph,
    pub timelines: Vec<Timeline>,
    pub remaining: Vec<u64>,
    ghost laid: { map timeline_of timelines.items ≡ map (planned graph.cores) (graph_of graph).segments } by { Prim.hlevel props },
    ghost remains: { remaining.items ≡ lengths graph.cores 0 (graph_of graph).segments },
    ghost in_time: { needed (graph_of graph) ≤ graph.deadline },
}
