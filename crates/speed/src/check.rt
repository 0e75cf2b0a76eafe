ghost use Rattle.std.specs.Prelude.{◌≡◌, IfErr};
ghost use Rattle.fault.specs.Card.{OnCard};
ghost use Rattle.model.specs.Making.{making};
ghost use Rattle.speed.specs.Made.{meant};

use crate::asked::Asked;
use crate::ladder::Ladder;
use fault::{Fault, Kind};

// The highest speed.
const MOST_SPEED: u64 = 10000;

// Whether a ladder of a kind can have these speeds. That a refusal is on the card is a clause, and not a field of
// `Fault`, which asks nothing of who makes one.
pub(crate) fn check<K: Ladder, A: Asked>(asked: &A) -> Result<(), Fault>
    ensures answer { meant (λ _. A.Asked.speeds asked.now) result ≡ making K.MOST (A.Asked.speeds asked.now) }
    ensures carries { IfErr result OnCard }
{
    let count = asked.count();
    if !(1..=K::MOST).contains(&count) {
        return Err(Kind::LadderForm.at(0));
    }
    let mut before = 0;
    // By level: only where the count has passed are the sums of even steps true sums.
    for level in 0..count {
        let speed = asked.speed(level);
        if speed <= before || speed > MOST_SPEED {
            return Err(Kind::LadderForm.at(level as u64 + 1));
        }
        before = speed;
    }
    Ok(())
}
