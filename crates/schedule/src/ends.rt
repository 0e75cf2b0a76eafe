ghost use Rattle.std.specs.Prelude.{◌≡◌, ℕ, ◌+◌, ◌≤◌, List, ◌∷◌, length, vec_len, slice_index};
ghost use Rattle.graph.specs.Meaning.{segment_of};
ghost use Rattle.model.specs.Canonical.{Progress};
ghost use Rattle.queue.specs.Held.{held, count, cells_of};
ghost use Rattle.schedule_laws.specs.Counting.{times};
ghost use Rattle.schedule_laws.specs.Released.{Released};
ghost use Rattle.schedule.specs.Stands.{SameWork, Passes};

use crate::layouts::Layout;
use crate::queues::put;
use graph::Segment;
use queue::{Queue, Ready, Running};

// One predecessor of each follower has ended: those that wait for no other are ready. No method, since the followers
// are a part of the layout that is lent while other parts change.
fn release(
    segment: &Segment,
    followers: &[u32],
    waiting: &mut Vec<u32>,
    ready: &mut Queue<'_, Ready>,
)
    requires counted { vec_len waiting.old ≡ vec_len segment.now.tasks }
    requires waits { (t : ℕ) → times (λ u. u) t followers.now ≤ slice_index waiting.old.items t }
    requires room { count ready.old + length followers.now ≤ length (cells_of ready.old) }
    ensures room { length (cells_of ready.new) ≡ length (cells_of ready.old) }
    ensures released { Released (segment_of segment.now) followers.now waiting.old.items waiting.new.items (held ready.old) (held ready.new) }
{
    for follower in followers {
        let task = *follower;
        let left = waiting[task as usize] - 1;
        waiting[task as usize] = left;
        let is_ready = left == 0;
        if is_ready {
            let worst = segment.tasks[task as usize].worst;
            put(ready, Ready { worst, task });
        }
    }
}

impl Layout<'_, '_> {
    // Ends a task that ran, and ends now.
    pub(crate) fn end(&mut self, ended: Running)
        requires now { ended.end ≡ self.old.moment }
        requires passes { (p : Progress) × (over : List ℕ) × Passes p over (ended ∷ held self.old.running) self.old }
        ensures running { self.new.running ≡ self.old.running }
        ensures same { SameWork self.old self.new }
        ensures passes { (p : Progress) (over : List ℕ)
            → Passes p over (ended ∷ held self.old.running) self.old
            → Passes p (ended.task ∷ over) (held self.new.running) self.new }
    {
        self.taken[ended.core as usize] = false;
        release(
            self.segment,
            &self.followers[ended.task as usize],
            &mut self.waiting,
            &mut self.ready,
        );
    }
}
