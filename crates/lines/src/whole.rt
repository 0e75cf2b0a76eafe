ghost use Rattle.std.specs.Prelude.{◌≡◌, map, IfOk};
ghost use Rattle.graph.specs.Whole.{graph_of};
ghost use Rattle.model.specs.LineRecords.{lines};
ghost use Rattle.lines.specs.Meaning.{line_of};

use crate::count::line_count;
use crate::fill::fill_lines;
use crate::record::Line;
use plan::Plan;
use std::alloc::{AllocError, Global};

// The line records of a plan, in a run of their own.
pub fn lines_of(heap: Global, plan: &Plan) -> Result<Vec<Line>, AllocError>
    ensures { IfOk result (λ v. map line_of v.items ≡ lines (graph_of plan.now.graph)) }
{
    let mut run = vec![in heap; Line::default(); line_count(plan)]?;
    fill_lines(plan, run.as_mut_slice()).unwrap();
    Ok(run)
}
