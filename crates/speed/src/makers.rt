ghost use Rattle.std.specs.Prelude.{◌≡◌, [], ◌∷◌, IfErr, OnErr};
ghost use Rattle.fault.specs.Card.{OnCard};
ghost use Rattle.model.specs.Making.{making, even_speeds};
ghost use Rattle.speed.specs.Kinds.{listed_speeds, even_of};
ghost use Rattle.speed.specs.Made.{meant};

use crate::asked::InSteps;
use crate::check::check;
use crate::even::Even;
use crate::listed::Listed;
use fault::Fault;

impl Listed {
    // A ladder of the one speed 1.
    pub fn new() -> Listed
        ensures { listed_speeds result ≡ 1 ∷ [] }
    {
        Listed {
            table: [1; 16],
            count: 1,
        }
    }

    // Takes these speeds over; or refuses them, and changes nothing.
    pub fn set(&mut self, speeds: &[u32]) -> Result<(), Fault>
        ensures answer { meant (λ _. listed_speeds self.new) result ≡ making 16 speeds.now }
        ensures kept { OnErr result (self.new ≡ self.old) }
        ensures carries { IfErr result OnCard }
    {
        check::<Listed, &[u32]>(&speeds)?;
        let count = speeds.len();
        let mut table = [0; 16];
        table[..count].copy_from_slice(speeds);
        *self = Listed { table, count };
        Ok(())
    }
}

impl Even {
    // A ladder of so many speeds from the lowest on, a step apart; or why there is none.
    pub fn new(lowest: u32, step: u32, count: usize) -> Result<Even, Fault>
        ensures answer { meant even_of result ≡ making 64 (even_speeds lowest step count) }
        ensures carries { IfErr result OnCard }
    {
        let steps = InSteps {
            lowest,
            step,
            count,
        };
        check::<Even, InSteps>(&steps)?;
        Ok(Even { steps })
    }
}
