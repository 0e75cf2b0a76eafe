ghost use Rattle.std.specs.Prelude.{map};
ghost use Rattle.graph.specs.Whole.{graph_of};
ghost use Rattle.model.specs.LineRecords.{lines};
ghost use Rattle.model.specs.Writing.{Written};
ghost use Rattle.lines.specs.Meaning.{line_of};

use crate::canonical::fill_canonical;
use crate::count::line_count;
use crate::record::Line;
use crate::shift::shift_lines;
use fault::{Fault, room_for};
use plan::Plan;

// Fills the first records of `out`, segment by segment in canonical order, and answers how many; or refuses, and
// writes nothing.
pub fn fill_lines(plan: &Plan, out: &mut [Line]) -> Result<usize, Fault>
    ensures { Written (lines (graph_of plan.now.graph)) result (map line_of out.old) (map line_of out.new) }
{
    let count = line_count(plan);
    room_for(count, out.len())?;
    fill_canonical(out, plan);
    shift_lines(&mut out[..count], plan);
    Ok(count)
}
