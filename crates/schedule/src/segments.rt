ghost use Rattle.std.specs.Prelude.{◌≡◌, map, length};
ghost use Rattle.fault.specs.Answers.{Answers, Refuses};
ghost use Rattle.graph.specs.Meaning.{segment_of};
ghost use Rattle.graph.specs.Whole.{graph_of};
ghost use Rattle.model.specs.Accepting.{tasks_of_largest};
ghost use Rattle.schedule.specs.Answer.{schedules};
ghost use Rattle.schedule.specs.Meaning.{timeline_of};

use crate::parts::Timeline;
use crate::timelines::timeline;
use fault::{Error, room_for};
use graph::{Graph, Segment};
use queue::{Ready, Running};
use std::alloc::Global;

// The canonical schedule of each segment. Too few cells are refused, ready cells first. The two runs of cells stay two
// parameters: a pair of loans would be made by each caller for this one call, and taken apart for each segment.
pub fn schedule(
    heap: Global,
    graph: &Graph,
    ready: &mut [Ready],
    running: &mut [Running],
) -> Result<Vec<Timeline>, Error>
    ensures answer { Answers (λ ts. map timeline_of ts.items) result (schedules (graph_of graph.now) (length ready.old) (length running.old)) }
    ensures kept { Refuses result (λ _. (ready.new ≡ ready.old) × (running.new ≡ running.old)) }
{
    let tasks = tasks_of_largest(&graph.segments);
    room_for(tasks, ready.len())?;
    let cores = graph.cores;
    room_for(cores as usize, running.len())?;
    let mut timelines = Vec::new(heap);
    for segment in &graph.segments {
        let timeline = timeline(heap, segment, cores, ready, running)?;
        timelines.push(timeline)?;
    }
    Ok(timelines)
}

// How many tasks the largest segment has.
fn tasks_of_largest(segments: &[Segment]) -> usize
    ensures { result ≡ tasks_of_largest (map segment_of segments.now) }
{
    segments
        .iter()
        .map(|segment| segment.tasks.len())
        .max()
        .unwrap_or(0)
}
