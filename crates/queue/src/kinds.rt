ghost use Rattle.queue.specs.Orders.{ready_before, running_before};
ghost use Rattle.std.proofs.Common.{rules};

use crate::order::Entry;
use std::cmp::Reverse;

// A task that waits for a core, with its worst time.
#[derive(Clone, Copy, PartialEq, Eq, Default, Debug)]
pub struct Ready {
    pub worst: u32,
    pub task: u32,
}

// The larger worst comes first, then the lower task.
impl Entry for Ready {
    ghost before = { ready_before };

    ghost asymmetric = { Prim.search rules };

    ghost total = { Prim.search rules };

    ghost transitive = { Prim.search rules };

    fn before(&self, other: &Ready) -> bool {
        (Reverse(self.worst), self.task) < (Reverse(other.worst), other.task)
    }
}

// A task on a core, with its end. Its order is that of the fields.
#[derive(Clone, Copy, PartialEq, Eq, PartialOrd, Ord, Default, Debug)]
pub struct Running {
    pub end: u64,
    pub core: u32,
    pub task: u32,
}

// The earlier end comes first, then the lower core, then the lower task.
impl Entry for Running {
    ghost before = { running_before };

    ghost asymmetric = { Prim.search rules };

    ghost total = { Prim.search rules };

    ghost transitive = { Prim.search rules };

    fn before(&self, other: &Running) -> bool {
        self < other
    }
}
