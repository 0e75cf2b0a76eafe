ghost use Rattle.std.specs.Prelude.{◌≡◌, ℕ, ◌<◌, List, length};
ghost use Rattle.model.specs.Ladders.{speed};
ghost use Rattle.model.specs.Limits.{most_levels};
ghost use Rattle.model.specs.Making.{even_speeds};

// The speeds that a ladder is asked to have. Each is read by its level, since the sums of even steps are true sums only
// where the count has passed.
pub(crate) trait Asked {
    ghost speeds: { Self → List ℕ };

    fn count(&self) -> usize
        ensures { result ≡ length (speeds self.now) };

    fn speed(&self, level: usize) -> u64
        requires there { level < length (speeds self.now) }
        requires few { level < most_levels }
        ensures { result ≡ speed (speeds self.now) level };
}

// Speeds listed one by one.
impl<'a> Asked for &'a [u32] {
    ghost speeds = { λ xs. xs.now };

    fn count(&self) -> usize {
        self.len()
    }

    fn speed(&self, level: usize) -> u64 {
        u64::from(self[level])
    }
}

// Speeds in even steps.
#[derive(Clone, Copy)]
pub(crate) struct InSteps {
    pub(crate) lowest: u32,
    pub(crate) step: u32,
    pub(crate) count: usize,
}

impl Asked for InSteps {
    ghost speeds = { λ x. even_speeds x.lowest x.step x.count };

    #[tactic(auto, using(model::proofs::EvenSpeeds::even_count))]
    fn count(&self) -> usize {
        self.count
    }

    #[tactic(auto, using(model::proofs::EvenSpeeds::even_at, model::proofs::EvenSpeeds::even_count))]
    fn speed(&self, level: usize) -> u64 {
        u64::from(self.lowest) + level as u64 * u64::from(self.step)
    }
}
