ghost use Rattle.std.specs.Prelude.{◌≡◌, ◌≤◌};
ghost use Rattle.model.specs.Ladders.{full, takes};
ghost use Rattle.speed.specs.Questions.{time_at};

use crate::ladder::Ladder;

// The last speed of a ladder.
pub fn full_speed<L: Ladder>(ladder: &L) -> u32
    ensures { result ≡ full (L.speeds ladder.now) }
{
    ladder.speed(ladder.count() - 1)
}

// Work × full speed ÷ a number, rounded up once: the ticks that the work takes at a speed, or the speed that it takes
// in a window.
#[tactic(auto, using(model::proofs::Ceilings::rounded_up))]
pub(crate) fn scaled<L: Ladder>(ladder: &L, work: u32, by: u64) -> u64
    requires { 1 ≤ by }
    ensures { result ≡ takes (L.speeds ladder.now) work by }
{
    let product = u64::from(work) * u64::from(full_speed(ladder));
    product.div_ceil(by)
}

// How many ticks the work takes at a level, none beyond the last.
pub fn time_at<L: Ladder>(ladder: &L, work: u32, level: usize) -> Option<u64>
    ensures { result ≡ time_at (L.speeds ladder.now) work level }
{
    if level >= ladder.count() {
        return None;
    }
    Some(scaled(ladder, work, u64::from(ladder.speed(level))))
}
