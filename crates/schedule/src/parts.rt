// A start of the canonical schedule: a task, the time, and the core.
#[derive(Clone, Copy, PartialEq, Eq, Debug)]
pub struct Start {
    pub task: u32,
    pub at: u64,
    pub core: u32,
}

// The canonical schedule of one segment: its starts in order, and its length.
#[derive(Drop)]
pub struct Timeline {
    pub starts: Vec<Start>,
    pub length: u64,
}
