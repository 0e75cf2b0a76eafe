// Faults: why a call was refused. A fault is a kind and a place; the kind gives its number and its layer.
#![tactic(auto)]

mod error;
mod kind;
mod print;
mod room;

pub use error::Error;
pub use kind::{Fault, Kind, Layer};
pub use room::room_for;
