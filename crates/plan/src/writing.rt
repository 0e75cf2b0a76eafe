ghost use Rattle.std.specs.Prelude.{◌≡◌, take, IfOk, Ok};
ghost use Rattle.graph.specs.Whole.{graph_of};
ghost use Rattle.model.specs.Accepting.{plan_reading};
ghost use Rattle.model.specs.Limits.{most_cores, most_tasks};
ghost use Rattle.model.specs.Writing.{graph_bytes, Written};

use crate::place::Plan;
use fault::Fault;
use writer::write_graph;

impl Plan {
    // Fills the first bytes of `out` with the plan's, and answers how many; or refuses, and writes nothing.
    pub fn write(&self, out: &mut [u8]) -> Result<usize, Fault>
        ensures answer { Written (graph_bytes (graph_of self.now.graph)) result out.old out.new }
        ensures reads_back { IfOk result (λ n. plan_reading most_tasks most_cores (take n out.new) ≡ Ok (graph_of self.now.graph)) }
    {
        write_graph(&self.graph, out)
    }
}
