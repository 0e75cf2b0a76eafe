ghost use Rattle.std.specs.Borrow.{Bor};
ghost use Rattle.std.specs.Prelude.{◌≡◌, ℕ, List};
ghost use Rattle.std.specs.Option.{option_map};
ghost use Rattle.graph.specs.Whole.{graph_of};
ghost use Rattle.model.specs.Names.{shown_name};

use crate::place::Plan;

impl Plan {
    // The name of a task, or the stand-in where it has none; a segment or task outside the plan has no name to show.
    pub fn name<'a>(&'a self, segment: usize, task: usize, stand_in: &'a [u8]) -> Option<&'a [u8]>
        ensures { option_map (λ (n : Bor (List ℕ)). n.now) result ≡ shown_name (graph_of self.now.graph) segment task stand_in.now }
    {
        let task = self.graph.segments.get(segment)?.tasks.get(task)?;
        let name = task.name.as_slice();
        Some(if name.is_empty() { stand_in } else { name })
    }
}
