ghost use Rattle.std.specs.Prelude.{◌≡◌};
ghost use Rattle.fault.specs.Room.{room};

use crate::kind::{Fault, Kind};

// Whether there are as many places as are needed; too few are refused with how many are needed.
pub fn room_for(needed: usize, there: usize) -> Result<(), Fault>
    ensures { result ≡ room needed there }
{
    if there < needed {
        Err(Kind::TooSmall.at(needed as u64))
    } else {
        Ok(())
    }
}
