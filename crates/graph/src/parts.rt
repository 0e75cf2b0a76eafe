ghost use Rattle.std.specs.Prelude.{◌^◌, ◌<◌, vec_len};

// A task: its name, its worst-case execution time at full speed in ticks, and its predecessors, which are lower
// tasks of its segment.
#[derive(Drop)]
pub struct Task {
    pub name: Vec<u8>,
    pub worst: u32,
    pub predecessors: Vec<u32>,
    ghost name_counted: { vec_len name < 2 ^ 32 },
    ghost predecessors_counted: { vec_len predecessors < 2 ^ 32 },
}

// A segment: the tasks between two OR nodes, and its exits, the higher segments of which one may follow.
#[derive(Drop)]
pub struct Segment {
    pub tasks: Vec<Task>,
    pub exits: Vec<u32>,
    ghost tasks_counted: { vec_len tasks < 2 ^ 32 },
    ghost exits_counted: { vec_len exits < 2 ^ 32 },
}
