ghost use Rattle.model.specs.Canonical.{next};
ghost use Rattle.fault.specs.Answers.{UnlessMemoryLacks};
ghost use Rattle.schedule.specs.Stands.{Sound, Moves};

use crate::layouts::Layout;
use fault::Error;

impl Layout<'_, '_> {
    // The first of the ready tasks starts on the lowest free core; without such a task or core, time passes.
    pub(crate) fn event(&mut self) -> Result<(), Error>
        requires { Sound self.old }
        ensures { UnlessMemoryLacks result (λ _. Moves next self.old self.new) }
    {
        if let Some(core) = self.free_core() {
            if let Some(first) = self.ready.take() {
                return self.start(first, core as u32);
            }
        }
        self.pass();
        Ok(())
    }
}
