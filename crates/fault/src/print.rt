ghost use Rattle.std.specs.Prelude.{Some};
ghost use Rattle.fault.specs.Card.{layer};
ghost use Rattle.fault.specs.Shown.{refusal, name};

use crate::kind::{Fault, Layer};
use std::fmt;

impl fmt::Display for Layer {
    ghost output = { λ l. Some (name l) };

    fn fmt<W: fmt::Write>(&self, f: &mut fmt::Formatter<W>) -> fmt::Result {
        match self {
            Layer::Bytes => f.write_str("bytes"),
            Layer::Plan => f.write_str("plan"),
            Layer::Ladder => f.write_str("ladder"),
            Layer::Frame => f.write_str("frame"),
        }
    }
}

// A fault prints as one line: refused, its number, layer and place.
impl fmt::Display for Fault {
    ghost output = { λ x. Some (refusal x) };

    fn fmt<W: fmt::Write>(&self, f: &mut fmt::Formatter<W>) -> fmt::Result {
        let number = self.kind.number();
        let layer = self.kind.layer();
        let place = self.place;
        write!(f, "refused {number} {layer} {place}")
    }
}
