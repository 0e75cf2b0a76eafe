ghost use Rattle.std.specs.Prelude.{ℕ, List};
ghost use Rattle.model.specs.Canonical.{Progress};
ghost use Rattle.graph.specs.Meaning.{segment_of};
ghost use Rattle.queue.specs.Held.{held};
ghost use Rattle.schedule_laws.specs.Passing.{time_passed};
ghost use Rattle.schedule.specs.Stands.{SameWork, Stands, Passes, Sound, Moves};

use crate::layouts::Layout;
use crate::queues::put;

impl Layout<'_, '_> {
    // Ends every task that ends at the moment, which no task that runs ends before.
    fn end_due(&mut self)
        requires { (p : Progress) × (over : List ℕ) × Passes p over (held self.old.running) self.old }
        ensures same { SameWork self.old self.new }
        ensures stands { (p : Progress) (over : List ℕ)
            → Passes p over (held self.old.running) self.old
            → Stands (time_passed (segment_of self.old.segment.now) p) self.new }
    {
        while let Some(next) = self.running.take() {
            if next.end != self.moment {
                put(&mut self.running, next);
                return;
            }
            self.end(next);
        }
    }

    // Time moves to the earliest end among those that run, and every task ending then ends; where none runs, nothing
    // happens.
    pub(crate) fn pass(&mut self)
        requires { Sound self.old }
        ensures { Moves (λ _. time_passed) self.old self.new }
    {
        let Some(earliest) = self.running.take() else {
            return;
        };
        self.moment = earliest.end;
        self.end(earliest);
        self.end_due();
    }
}
