ghost use Rattle.model.specs.Policies.{greedy, two_step};
ghost use Rattle.std.proofs.Common.{rules};

use crate::policy::Policy;

// The lower of floor and top.
#[derive(Clone, Copy)]
pub struct Greedy;

impl Policy for Greedy {
    ghost rule = { λ _. greedy };

    ghost ranged = { Prim.search rules };

    fn level(&self, _task: u32, _time: u64, floor: usize, top: usize) -> usize {
        floor.min(top)
    }
}

// One level before a time and another from then on, raised to the floor, then lowered to the top.
#[derive(Clone, Copy)]
pub struct TwoStep {
    pub switch: u64,
    pub first: usize,
    pub second: usize,
}

impl Policy for TwoStep {
    ghost rule = { λ x. two_step x.switch x.first x.second };

    ghost ranged = { Prim.search rules };

    fn level(&self, _task: u32, time: u64, floor: usize, top: usize) -> usize {
        let wanted = if time < self.switch {
            self.first
        } else {
            self.second
        };
        wanted.max(floor).min(top)
    }
}
