ghost use Rattle.std.specs.Prelude.{◌≡◌, ◌+◌, ◌^◌, ◌<◌, ◌≤◌, map};
ghost use Rattle.graph.specs.Whole.{graph_of};
ghost use Rattle.model.specs.CanonicalLines.{shifted};
ghost use Rattle.model.specs.LineRecords.{Line as ModelLine};
ghost use Rattle.model.specs.Lists.{In};
ghost use Rattle.model.specs.Times.{shift};
ghost use Rattle.lines.specs.Meaning.{line_of};

use crate::record::Line;
use plan::Plan;

// Shifts each record by the slack of its segment.
pub(crate) fn shift_lines(records: &mut [Line], plan: &Plan)
    requires { (l : ModelLine) → In l (map line_of records.old) → (l.start ≤ l.end) × (l.end + shift (graph_of plan.now.graph) l.segment < 2 ^ 64) }
    ensures { map line_of records.new ≡ map (shifted (graph_of plan.now.graph)) (map line_of records.old) }
{
    for line in records.iter_mut() {
        let slack = plan.shift(line.segment);
        line.start += slack;
        line.end += slack;
    }
}
