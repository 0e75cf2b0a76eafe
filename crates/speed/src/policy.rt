ghost use Rattle.std.specs.Prelude.{◌≡◌};
ghost use Rattle.model.specs.Policies.{Rule, Ranged};

// A policy: a rule that picks a level, told a task, the time, the floor and the top level. Where the floor is at most
// the top, the level lies from floor to top; otherwise it is the top.
pub trait Policy {
    ghost rule: { Self → Rule };

    fn level(&self, task: u32, time: u64, floor: usize, top: usize) -> usize
        ensures { result ≡ rule self.now task time floor top };

    ghost ranged: { (x : Self) → Ranged (rule x) };
}
