ghost use Rattle.std.specs.Prelude.{◌≡◌, length};
ghost use Rattle.graph.specs.Whole.{graph_of};
ghost use Rattle.model.specs.LineRecords.{lines};

use plan::Plan;

// How many line records a plan has: one for each task.
pub fn line_count(plan: &Plan) -> usize
    ensures { result ≡ length (lines (graph_of plan.now.graph)) }
{
    plan.timelines
        .iter()
        .map(|timeline| timeline.starts.len())
        .sum()
}
