ghost use Rattle.std.specs.Prelude.{◌≡◌, ◌≤◌};
ghost use Rattle.model.specs.Ladders.{full, floor};
ghost use Rattle.speed.specs.Questions.{FirstEnough, Parts};

use crate::ladder::Ladder;
use crate::times::scaled;

// The lowest level whose speed is at least this one, as full speed is. By a loop that halves the levels: the library
// does that for slices alone, and a ladder is none.
fn lowest_level<L: Ladder>(ladder: &L, least: u64) -> usize
    requires { least ≤ full (L.speeds ladder.now) }
    ensures { FirstEnough (L.speeds ladder.now) least result }
{
    let mut low = 0;
    let mut high = ladder.count() - 1;
    while low < high {
        let middle = low + (high - low) / 2;
        if u64::from(ladder.speed(middle)) < least {
            low = middle + 1;
        } else {
            high = middle;
        }
    }
    low
}

// The lowest level at which the work takes at most the window; none where it does not fit even at full speed.
pub fn floor_for<L: Ladder>(ladder: &L, work: u32, window: u64) -> Option<usize>
    ensures answer { result ≡ floor (L.speeds ladder.now) work window }
    ensures parts { Parts (L.speeds ladder.now) work window result }
{
    if window < u64::from(work) {
        return None;
    }
    if work == 0 {
        return Some(0);
    }
    Some(lowest_level(ladder, scaled(ladder, work, window)))
}
