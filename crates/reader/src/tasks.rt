ghost use Rattle.std.specs.Prelude.{◌≡◌, ◌-◌, [], map, IfOk, vec_len};
ghost use Rattle.model.specs.Bytes.{several};
ghost use Rattle.model.specs.Graph.{predecessors_of};
ghost use Rattle.model.specs.Reading.{numbered_task, next_task};
ghost use Rattle.graph.specs.Meaning.{task_of};
ghost use Rattle.reader.specs.Answers.{Reads};

use crate::input::Input;
use crate::limits::{MOST_NAME, MOST_WORST};
use fault::{Error, Kind};
use graph::Task;

impl Input<'_> {
    // The task of number `own` in its segment, where the plan may have `left` predecessors more.
    fn task(&mut self, own: u32, left: usize) -> Result<Task, Error>
        ensures { Reads task_of (numbered_task self.old.count own left) self.old result self.new }
    {
        let size = self.ranged(0, MOST_NAME)?;
        let name = self.name(size)?;
        let worst = self.ranged(0, MOST_WORST)?;
        let many = self.ranged(0, left)?;
        let predecessors = self.rising(many, 0, own, Kind::NotRising)?;
        Ok(Task {
            name,
            worst,
            predecessors,
        })
    }

    // `many` tasks of a segment, where the plan may have `left` predecessors more.
    pub(crate) fn tasks(&mut self, many: u32, left: usize) -> Result<Vec<Task>, Error>
        ensures reads { Reads (λ v. map task_of v.items) (several (next_task self.old.count left) many []) self.old result self.new }
        ensures len { IfOk result (λ v. vec_len v ≡ many) }
    {
        let mut tasks = Vec::new(self.heap);
        let mut allowed = left;
        for own in 0..many {
            let task = self.task(own, allowed)?;
            allowed = allowed.saturating_sub(task.predecessors.len());
            tasks.push(task)?;
        }
        Ok(tasks)
    }
}

// How many predecessors are left to the plan after those of `tasks`.
pub(crate) fn left_after(tasks: &[Task], left: usize) -> usize
    ensures { result ≡ left - predecessors_of (map task_of tasks.now) }
{
    tasks.iter().fold(
        left,
        |left, task| left.saturating_sub(task.predecessors.len()),
    )
}
