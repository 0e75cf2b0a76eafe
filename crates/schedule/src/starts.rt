ghost use Rattle.std.specs.Prelude.{◌≡◌, ◌<◌, false, not, ◌∷◌, take, position, slice_index_or};
ghost use Rattle.model.specs.Canonical.{Progress};
ghost use Rattle.queue.specs.Held.{held};
ghost use Rattle.fault.specs.Answers.{UnlessMemoryLacks};
ghost use Rattle.schedule.specs.Stands.{StandsWith, Begun};

use crate::layouts::Layout;
use crate::parts::Start;
use crate::queues::put;
use fault::Error;
use queue::{Ready, Running};

impl Layout<'_, '_> {
    // The lowest of the cores that is free.
    pub(crate) fn free_core(&self) -> Option<usize>
        ensures { result ≡ position not (take self.now.cores self.now.taken) }
    {
        self.taken
            .iter()
            .take(self.cores as usize)
            .position(|taken| !taken)
    }

    // Starts a ready task on a free core.
    pub(crate) fn start(&mut self, first: Ready, core: u32) -> Result<(), Error>
        requires free { (core < self.old.cores) × (slice_index_or self.old.taken core false ≡ false) }
        requires stands { (p : Progress) × StandsWith p (first ∷ held self.old.ready) (held self.old.running) self.old }
        ensures { UnlessMemoryLacks result (λ _. Begun first core self.old self.new) }
    {
        let at = self.moment;
        let task = first.task;
        self.starts.push(Start { task, at, core })?;
        self.taken[core as usize] = true;
        let end = at + u64::from(first.worst);
        put(&mut self.running, Running { end, core, task });
        Ok(())
    }
}
