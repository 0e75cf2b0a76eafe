ghost use Rattle.std.specs.Prelude.{◌≡◌, ◌≤◌, length, vec_len};
ghost use Rattle.graph.specs.Meaning.{segment_of};
ghost use Rattle.model.specs.Canonical.{after};
ghost use Rattle.queue.specs.Empty.{Empty};
ghost use Rattle.queue.specs.Held.{held, cells_of};
ghost use Rattle.schedule_laws.specs.Beginning.{Beginning};
ghost use Rattle.schedule_laws.specs.Bounds.{Bounded};
ghost use Rattle.fault.specs.Answers.{UnlessMemoryLacks};
ghost use Rattle.schedule.specs.Stands.{Stands};

use crate::followers::followers;
use crate::layouts::Layout;
use crate::queues::put;
use fault::Error;
use graph::Segment;
use queue::{Queue, Ready, Running};
use std::alloc::Global;

// Counts the predecessors of each task, and puts those that have none into the empty queue.
fn begin(heap: Global, segment: &Segment, ready: &mut Queue<'_, Ready>) -> Result<Vec<u32>, Error>
    requires empty { Empty ready.old }
    requires room { vec_len segment.now.tasks ≤ length (cells_of ready.old) }
    ensures room { length (cells_of ready.new) ≡ length (cells_of ready.old) }
    ensures begun { UnlessMemoryLacks result (λ w. Beginning (segment_of segment.now) (length (segment_of segment.now).tasks) (held ready.new) w.items) }
{
    let mut waiting = Vec::new(heap);
    for (number, task) in segment.tasks.iter().enumerate() {
        let count = task.predecessors.len() as u32;
        waiting.push(count)?;
        if count == 0 {
            let worst = task.worst;
            let task = number as u32;
            put(ready, Ready { worst, task });
        }
    }
    Ok(waiting)
}

impl<'s, 'c> Layout<'s, 'c> {
    // The layout before the first event, over cells that are enough for the segment. Limits and room are asked for here
    // and below, where no layout is there yet whose type would say them.
    pub(crate) fn new(
        heap: Global,
        segment: &'s Segment,
        cores: u32,
        ready: &'c mut [Ready],
        running: &'c mut [Running],
    ) -> Result<Layout<'s, 'c>, Error>
        requires bounded { Bounded cores (segment_of segment.now) }
        requires ready_room { length (segment_of segment.now).tasks ≤ length ready.old }
        requires running_room { cores ≤ length running.old }
        ensures { UnlessMemoryLacks result (λ l. (l.cores ≡ cores) × (l.segment.now ≡ segment.now) × Stands (after cores (segment_of segment.now) 0) l) }
    {
        let followers = followers(heap, segment)?;
        let mut ready = Queue::new(ready);
        let waiting = begin(heap, segment, &mut ready)?;
        Ok(Layout {
            segment,
            cores,
            followers,
            moment: 0,
            starts: Vec::new(heap),
            waiting,
            taken: [false; 8],
            ready,
            running: Queue::new(running),
        })
    }
}
