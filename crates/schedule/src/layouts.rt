ghost use Rattle.std.specs.Prelude.{◌≡◌, ◌≤◌, length, vec_len};
ghost use Rattle.std.proofs.Props.{props};
ghost use Rattle.graph.specs.Meaning.{segment_of};
ghost use Rattle.queue.specs.Held.{cells_of};
ghost use Rattle.schedule_laws.specs.Bounds.{Bounded, Apart_prop};
ghost use Rattle.schedule_laws.specs.Following.{Following};
ghost use Rattle.schedule.specs.Vecs.{lists};

use crate::parts::Start;
use graph::Segment;
use queue::{Queue, Ready, Running};

// A segment as it is laid out on some cores: the followers of each task; the moment, and the starts so far; how many
// predecessors each task waits for, and which cores of the board are taken; the ready tasks, and the running ones.
// `followers` and `waiting` are apart, since the end of a task walks its followers while it counts down what they wait
// for: in one Vec of pairs it would have to copy them first. `taken` is the board, which has eight cores. That a layout
// stands for a progress of the model is no field: while time passes it stands for none.
#[derive(Drop)]
pub(crate) struct Layout<'s, 'c> {
    pub(crate) segment: &'s Segment,
    pub(crate) cores: u32,
    pub(crate) followers: Vec<Vec<u32>>,
    pub(crate) moment: u64,
    pub(crate) starts: Vec<Start>,
    pub(crate) waiting: Vec<u32>,
    pub(crate) taken: [bool; 8],
    pub(crate) ready: Queue<'c, Ready>,
    pub(crate) running: Queue<'c, Running>,
    ghost bounded: { Bounded cores (segment_of segment.now) } by { Prim.hlevel (props, Apart_prop) },
    ghost follows: { Following (segment_of segment.now) (length (segment_of segment.now).tasks) (lists followers) } by { Prim.hlevel props },
    ghost counted: { vec_len waiting ≡ vec_len segment.now.tasks },
    ghost ready_room: { length (segment_of segment.now).tasks ≤ length (cells_of ready) },
    ghost running_room: { cores ≤ length (cells_of running) },
}
