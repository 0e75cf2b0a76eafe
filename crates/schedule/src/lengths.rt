ghost use Rattle.std.specs.Prelude.{◌≡◌, ◌^◌, ◌<◌, map, length};
ghost use Rattle.graph.specs.Meaning.{segment_of};
ghost use Rattle.model.specs.Canonical.{end_of, last_end};
ghost use Rattle.schedule.specs.Meaning.{start_of};
ghost use Rattle.schedule.specs.Stands.{Sound};

use crate::layouts::Layout;
use crate::parts::Start;

impl Layout<'_, '_> {
    // When a start ends.
    fn end_of(&self, start: &Start) -> u64
        requires inside { start.now.task < length (segment_of self.now.segment.now).tasks }
        requires fits { end_of (segment_of self.now.segment.now) (start_of start.now) < 2 ^ 64 }
        ensures { result ≡ end_of (segment_of self.now.segment.now) (start_of start.now) }
    {
        start.at + u64::from(self.segment.tasks[start.task as usize].worst)
    }

    // When the last of the starts ends.
    pub(crate) fn last_end(&self) -> u64
        requires { Sound self.now }
        ensures { result ≡ last_end (segment_of self.now.segment.now) (map start_of self.now.starts.items) }
    {
        self.starts
            .iter()
            .map(|start| self.end_of(start))
            .max()
            .unwrap_or(0)
    }
}
