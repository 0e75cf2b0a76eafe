ghost use Rattle.speed.specs.Kinds.{listed_speeds, even_of};
ghost use Rattle.std.proofs.Common.{rules, arith};
ghost use Rattle.std.proofs.lemmas.List.{get_or-take, length-take};
ghost use Rattle.model.proofs.EvenSpeeds.{even_sound, even_count};

use crate::asked::Asked;
use crate::even::Even;
use crate::ladder::Ladder;
use crate::listed::Listed;

impl Ladder for Listed {
    const MOST: usize = 16;

    ghost MOST = { 16 };

    ghost speeds = { listed_speeds };

    ghost sound = { Prim.search (rules, get_or-take, length-take) };

    ghost few = { Prim.search rules };

    ghost on_card = { Prim.search rules };

    fn count(&self) -> usize {
        self.count
    }

    fn speed(&self, level: usize) -> u32 {
        self.table[..self.count].get(level).copied().unwrap_or(0)
    }
}

impl Ladder for Even {
    const MOST: usize = 64;

    ghost MOST = { 64 };

    ghost speeds = { even_of };

    ghost sound = { λ x. let s = x.steps in even_sound s.lowest s.step s.count x.some x.least x.most x.rises };

    ghost few = { λ x. let s = x.steps in omega (arith, even_count s.lowest s.step s.count) };

    ghost on_card = { Prim.search rules };

    fn count(&self) -> usize {
        self.steps.count()
    }

    #[tactic(auto, using(model::proofs::EvenSpeeds::even_count, model::proofs::EvenSpeeds::even_sound))]
    fn speed(&self, level: usize) -> u32 {
        if level < self.steps.count() {
            self.steps.speed(level) as u32
        } else {
            0
        }
    }
}
