// Numbers in bytes: groups of seven bits, lowest first.
#![tactic(auto)]

mod form;
mod place;
mod read;
mod write;

pub use form::Groups;
pub use place::place_of;
pub use read::read_number;
pub use write::write_number;
