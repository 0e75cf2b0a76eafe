ghost use Rattle.std.specs.Prelude.{◌≡◌, ◌≤◌, length};
ghost use Rattle.graph.specs.Meaning.{segment_of};
ghost use Rattle.schedule_laws.specs.Bounds.{Bounded};
ghost use Rattle.fault.specs.Answers.{UnlessMemoryLacks};
ghost use Rattle.schedule.specs.Meaning.{timeline_of, planned};

use crate::layouts::Layout;
use crate::parts::Timeline;
use fault::Error;
use graph::Segment;
use queue::{Ready, Running};
use std::alloc::Global;

// The canonical schedule of one segment, over cells that are enough for it: each task starts once and ends once. Limits
// and room are asked for, since the layout is only made here.
pub(crate) fn timeline(
    heap: Global,
    segment: &Segment,
    cores: u32,
    ready: &mut [Ready],
    running: &mut [Running],
) -> Result<Timeline, Error>
    requires bounded { Bounded cores (segment_of segment.now) }
    requires ready_room { length (segment_of segment.now).tasks ≤ length ready.old }
    requires running_room { cores ≤ length running.old }
    ensures { UnlessMemoryLacks result (λ t. timeline_of t ≡ planned cores (segment_of segment.now)) }
{
    let mut layout = Layout::new(heap, segment, cores, ready, running)?;
    for _event in 0..2 * segment.tasks.len() {
        layout.event()?;
    }
    let length = layout.last_end();
    let starts = layout.starts;
    Ok(Timeline { starts, length })
}
