ghost use Rattle.std.specs.Prelude.{◌≡◌};
ghost use Rattle.model.specs.Numbers.{number};
ghost use Rattle.number.specs.Told.{told};

use crate::place::place_of;
use fault::{Fault, Kind};

// One past the largest number.
const LIMIT: u64 = 4_294_967_296;

// What the sixth group weighs: a group of it or beyond it that is not 0 makes the number too large.
const HEAVIEST: u64 = 34_359_738_368;

// The number that `bytes` begin with, and the bytes after it. They are the last of a run of `count` bytes,
// from whose first byte the place of a fault is counted.
pub fn read_number<'a>(count: usize, bytes: &'a [u8]) -> Result<(u32, &'a [u8]), Fault>
    ensures { told result ≡ number count bytes.now }
{
    let place = place_of(count, bytes);
    let mut rest = bytes;
    let mut sum: u64 = 0;
    let mut weight: u64 = 1;
    while let [first, more @ ..] = rest {
        let group = *first;
        sum = (sum + u64::from(group % 128) * weight).min(LIMIT);
        if group < 128 {
            if sum == LIMIT || (group == 0 && weight > 1) {
                return Err(Kind::NumberForm.at(place));
            }
            return Ok((sum as u32, more));
        }
        weight = (weight * 128).min(HEAVIEST);
        rest = more;
    }
    Err(Kind::BytesEnd.at(count as u64))
}
