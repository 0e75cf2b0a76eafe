// One task of the plan in canonical order, with its latest times in ticks.
#[derive(Clone, Copy, Default, PartialEq, Eq, Debug)]
pub struct Line {
    pub segment: usize,
    pub task: u32,
    pub order: usize,
    pub start: u64,
    pub end: u64,
}
