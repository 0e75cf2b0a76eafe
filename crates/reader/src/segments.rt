ghost use Rattle.std.specs.Prelude.{◌≡◌, ◌<◌, [], map, IfOk, vec_len};
ghost use Rattle.model.specs.Bytes.{several};
ghost use Rattle.model.specs.Reading.{numbered_segment, next_segment};
ghost use Rattle.graph.specs.Meaning.{segment_of};
ghost use Rattle.reader.specs.Answers.{Reads};

use crate::input::Input;
use crate::limits::{MOST_EXITS, MOST_PREDECESSORS, MOST_TASKS};
use crate::tasks::left_after;
use fault::{Error, Kind};
use graph::Segment;

impl Input<'_> {
    // The segment of number `own` of `segments`, where the plan may have so many tasks and predecessors more.
    fn segment(
        &mut self,
        segments: u32,
        own: u32,
        tasks_left: usize,
        left: usize,
    ) -> Result<Segment, Error>
        requires { own < segments }
        ensures { Reads segment_of (numbered_segment self.old.count segments own tasks_left left) self.old result self.new }
    {
        let many = self.ranged(1, tasks_left)?;
        let tasks = self.tasks(many, left)?;
        let exit_count = self.ranged(0, MOST_EXITS)?;
        let exits = self.rising(exit_count, own + 1, segments, Kind::OutOfRange)?;
        Ok(Segment { tasks, exits })
    }

    // The segments of a plan of `many`.
    pub(crate) fn segments(&mut self, many: u32) -> Result<Vec<Segment>, Error>
        ensures reads { Reads (λ v. map segment_of v.items) (several (next_segment self.old.count many) many []) self.old result self.new }
        ensures len { IfOk result (λ v. vec_len v ≡ many) }
    {
        let mut segments = Vec::new(self.heap);
        let mut tasks_left = MOST_TASKS;
        let mut left = MOST_PREDECESSORS;
        for own in 0..many {
            let segment = self.segment(many, own, tasks_left, left)?;
            tasks_left = tasks_left.saturating_sub(segment.tasks.len());
            left = left_after(segment.tasks.as_slice(), left);
            segments.push(segment)?;
        }
        Ok(segments)
    }
}
