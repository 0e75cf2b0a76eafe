ghost use Rattle.std.specs.Prelude.{◌≡◌, ◌+◌, ◌<◌, ◌++◌, [], ◌∷◌};
ghost use Rattle.model.specs.Numbers.{number_bytes};
ghost use Rattle.model.specs.Writing.{Written};
ghost use Rattle.number.specs.Held.{bytes_of};

use crate::form::Groups;
use fault::{Fault, room_for};

impl Groups {
    // The groups of `n`, lowest first.
    pub fn new(n: u32) -> Groups
        ensures { bytes_of result ≡ number_bytes n }
    {
        let mut groups = Groups {
            bytes: [0; 5],
            len: 0,
        };
        let mut left = n;
        while left >= 128 {
            groups.push((128 + left % 128) as u8);
            left /= 128;
        }
        groups.push(left as u8);
        groups
    }

    // One group more.
    fn push(&mut self, group: u8)
        requires { self.old.len < 5 }
        ensures bytes { bytes_of self.new ≡ bytes_of self.old ++ group ∷ [] }
        ensures len { self.new.len ≡ self.old.len + 1 }
    {
        self.bytes[self.len] = group;
        self.len += 1;
    }

    pub fn as_slice(&self) -> &[u8]
        ensures { result.now ≡ bytes_of self.now }
    {
        &self.bytes[..self.len]
    }
}

// Fills the first bytes of `out` with those of `n`, and answers how many; or refuses, and writes nothing.
pub fn write_number(n: u32, out: &mut [u8]) -> Result<usize, Fault>
    ensures { Written (number_bytes n) result out.old out.new }
{
    let groups = Groups::new(n);
    let bytes = groups.as_slice();
    let size = bytes.len();
    room_for(size, out.len())?;
    out[..size].copy_from_slice(bytes);
    Ok(size)
}
