ghost use Rattle.std.specs.Prelude.{◌≡◌};
ghost use Rattle.fault.specs.declared.error.Error.TheVariants.{Refused as WithFault, OutOfMemory};

use crate::kind::Fault;
use std::alloc::{AllocError, AllocFailed as NoRoom};

// Why a call that takes memory gives no answer: it refuses by the card, or finds no memory.
#[derive(Clone, Copy, PartialEq, Eq, Debug)]
pub enum Error {
    Refused(Fault),
    OutOfMemory,
}

impl From<Fault> for Error {
    ghost from_gives = { λ f r. r ≡ WithFault f };

    fn from(f: Fault) -> Error {
        Error::Refused(f)
    }
}

impl From<AllocError> for Error {
    ghost from_gives = { λ _ r. r ≡ OutOfMemory };

    fn from(_e: AllocError) -> Error {
        Error::OutOfMemory
    }
}

impl<T: Drop> From<NoRoom<T>> for Error {
    ghost from_gives = { λ _ r. r ≡ OutOfMemory };

    fn from(_e: NoRoom<T>) -> Error {
        Error::OutOfMemory
    }
}
