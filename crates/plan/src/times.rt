ghost use Rattle.std.specs.Prelude.{◌≡◌};
ghost use Rattle.graph.specs.Whole.{graph_of};
ghost use Rattle.model.specs.Times.{shift};

use crate::place::Plan;

impl Plan {
    // How much later than from time 0 a segment may run: the deadline less its remaining length. A segment outside the
    // plan has nothing remaining.
    pub fn shift(&self, segment: usize) -> u64
        ensures { result ≡ shift (graph_of self.now.graph) segment }
    {
        let deadline = u64::from(self.graph.deadline);
        deadline - self.remaining.get(segment).copied().unwrap_or(0)
    }
}
