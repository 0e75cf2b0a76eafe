ghost use Rattle.std.specs.Prelude.{◌≡◌, length, take, IfOk, Ok};
ghost use Rattle.model.specs.Reading.{reading};
ghost use Rattle.model.specs.Runs.{Laid};
ghost use Rattle.model.specs.Writing.{task_bytes, segment_bytes, graph_bytes, Written};
ghost use Rattle.graph.specs.Meaning.{task_of, segment_of};
ghost use Rattle.graph.specs.Whole.{graph_of};

use crate::run::{Put, Run};
use fault::{Fault, room_for};
use graph::{Graph, Segment, Task};

impl Put for Task {
    ghost bytes = { λ t. task_bytes (task_of t) };

    fn put(&self, run: &mut Run<'_>) {
        run.list(self.name.as_slice());
        self.worst.put(run);
        run.list(self.predecessors.as_slice());
    }
}

impl Put for Segment {
    ghost bytes = { λ s. segment_bytes (segment_of s) };

    fn put(&self, run: &mut Run<'_>) {
        run.list(self.tasks.as_slice());
        run.list(self.exits.as_slice());
    }
}

impl Put for Graph {
    ghost bytes = { λ g. graph_bytes (graph_of g) };

    fn put(&self, run: &mut Run<'_>) {
        self.cores.put(run);
        self.deadline.put(run);
        run.list(self.segments.as_slice());
    }
}

// Lays the graph over a run from its first byte on, as far as that reaches, and tells how many bytes the graph takes.
fn lay(graph: &Graph, out: &mut [u8]) -> usize
    ensures { Laid (graph_bytes (graph_of graph.now)) 0 out.old result out.new }
{
    let mut run = Run::new(out);
    graph.put(&mut run);
    run.at
}

// How many bytes the graph takes.
pub fn graph_size(graph: &Graph) -> usize
    ensures { result ≡ length (graph_bytes (graph_of graph.now)) }
{
    lay(graph, &mut [])
}

// Fills the first bytes of `out` with the graph's, and answers how many; or refuses, and writes nothing.
pub fn write_graph(graph: &Graph, out: &mut [u8]) -> Result<usize, Fault>
    ensures answer { Written (graph_bytes (graph_of graph.now)) result out.old out.new }
    ensures reads_back { IfOk result (λ n. reading (take n out.new) ≡ Ok (graph_of graph.now)) }
{
    room_for(graph_size(graph), out.len())?;
    Ok(lay(graph, out))
}
