// The limits of a plan.
pub(crate) const MOST_CORES: usize = 8;

pub(crate) const MOST_DEADLINE: usize = 1_000_000_000;

pub(crate) const MOST_SEGMENTS: usize = 32;

pub(crate) const MOST_TASKS: usize = 256;

pub(crate) const MOST_PREDECESSORS: usize = 1024;

pub(crate) const MOST_EXITS: usize = 31;

pub(crate) const MOST_NAME: usize = 16;

pub(crate) const MOST_WORST: usize = 1_000_000;
