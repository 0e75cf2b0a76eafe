ghost use Rattle.std.specs.Prelude.{◌≡◌, ℕ, ◌<◌, [], length, replicate, vec_len};
ghost use Rattle.model.specs.Lists.{In};
ghost use Rattle.graph.specs.Meaning.{segment_of};
ghost use Rattle.schedule_laws.specs.Bounds.{Bounded};
ghost use Rattle.schedule_laws.specs.Following.{Followed, Following};
ghost use Rattle.fault.specs.Answers.{UnlessMemoryLacks};
ghost use Rattle.schedule.specs.Vecs.{lists};

use fault::Error;
use graph::Segment;
use std::alloc::Global;

// For each task, the tasks that have it as a predecessor. The limits are asked for: no layout is there yet.
pub(crate) fn followers(heap: Global, segment: &Segment) -> Result<Vec<Vec<u32>>, Error>
    requires { (cores : ℕ) × Bounded cores (segment_of segment.now) }
    ensures { UnlessMemoryLacks result (λ v. Following (segment_of segment.now) (length (segment_of segment.now).tasks) (lists v)) }
{
    let mut followers = no_followers(heap, segment.tasks.len())?;
    for (number, task) in segment.tasks.iter().enumerate() {
        follow(&mut followers, number as u32, &task.predecessors)?;
    }
    Ok(followers)
}

// So many tasks, none of which has a follower.
fn no_followers(heap: Global, count: usize) -> Result<Vec<Vec<u32>>, Error>
    ensures { UnlessMemoryLacks result (λ v. lists v ≡ replicate count []) }
{
    let mut followers = Vec::new(heap);
    followers.resize_with(count, || Vec::new(heap))?;
    Ok(followers)
}

// Makes a task a follower of each of its predecessors.
fn follow(followers: &mut Vec<Vec<u32>>, number: u32, predecessors: &[u32]) -> Result<(), Error>
    requires { (p : ℕ) → In p predecessors.now → p < vec_len followers.old }
    ensures { UnlessMemoryLacks result (λ _. Followed number predecessors.now (lists followers.old) (lists followers.new)) }
{
    for predecessor in predecessors {
        followers[*predecessor as usize].push(number)?;
    }
    Ok(())
}
