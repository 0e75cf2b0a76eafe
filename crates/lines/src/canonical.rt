ghost use Rattle.std.specs.Prelude.{◌≡◌, ◌+◌, ◌^◌, ◌<◌, ◌≤◌, map, length};
ghost use Rattle.graph.specs.Meaning.{segment_of};
ghost use Rattle.graph.specs.Whole.{graph_of};
ghost use Rattle.model.specs.Canonical.{Start as ModelStart, end_of};
ghost use Rattle.model.specs.CanonicalLines.{lines_from, canonical_lines};
ghost use Rattle.model.specs.Lists.{In};
ghost use Rattle.model.specs.Runs.{over, Laid};
ghost use Rattle.schedule.specs.Meaning.{start_of};
ghost use Rattle.lines.specs.Meaning.{line_of};

use crate::record::Line;
use graph::Segment;
use plan::Plan;
use schedule::Start;

// Lays the canonical starts and ends of one segment over the run from a place on, and answers the place after them.
fn fill_segment(
    out: &mut [Line],
    at: usize,
    segment: &Segment,
    number: usize,
    starts: &[Start],
) -> usize
    requires room { at + length starts.now ≤ length out.old }
    requires known { (x : ModelStart) → In x (map start_of starts.now) → (x.task < length (segment_of segment.now).tasks) × (end_of (segment_of segment.now) x < 2 ^ 64) }
    ensures { Laid (lines_from (segment_of segment.now) number 0 (map start_of starts.now)) at (map line_of out.old) result (map line_of out.new) }
{
    // By place: after a loop over records lent by `iter_mut` beside the starts, no proof knows what the records hold.
    for (order, start) in starts.iter().enumerate() {
        let worst = segment.tasks[start.task as usize].worst;
        out[at + order] = Line {
            segment: number,
            task: start.task,
            order,
            start: start.at,
            end: start.at + u64::from(worst),
        };
    }
    at + starts.len()
}

// Lays the canonical starts and ends of every segment over the first places of the run.
pub(crate) fn fill_canonical(out: &mut [Line], plan: &Plan)
    requires { length (canonical_lines (graph_of plan.now.graph)) ≤ length out.old }
    ensures { map line_of out.new ≡ over 0 (canonical_lines (graph_of plan.now.graph)) (map line_of out.old) }
{
    let mut place = 0;
    let segments = plan.graph.segments.iter().zip(plan.timelines.iter());
    for (number, (segment, timeline)) in segments.enumerate() {
        place = fill_segment(out, place, segment, number, timeline.starts.as_slice());
    }
}
