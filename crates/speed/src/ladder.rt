ghost use Rattle.std.specs.Prelude.{◌≡◌, ℕ, ◌≤◌, List, length};
ghost use Rattle.model.specs.Ladders.{Sound, speed};
ghost use Rattle.model.specs.Limits.{most_levels};

// A ladder: the speeds that a core's clock can take, one to a level, strictly rising, each from 1 to 10,000. The last
// is full speed.
pub trait Ladder {
    // The most levels of the kind.
    const MOST: usize;

    ghost MOST: { ℕ };

    // What a ladder means.
    ghost speeds: { Self → List ℕ };

    // The most levels of the kind.
    fn most_levels() -> usize
        ensures { result ≡ MOST }
    {
        Self::MOST
    }

    // How many levels there are.
    fn count(&self) -> usize
        ensures { result ≡ length (speeds self.now) };

    // The speed of a level, 0 beyond the last: a number and no Option, as ladders are defined.
    fn speed(&self, level: usize) -> u32
        ensures { result ≡ speed (speeds self.now) level };

    ghost sound: { (x : Self) → Sound (speeds x) };

    ghost few: { (x : Self) → length (speeds x) ≤ MOST };

    // The fault card has places for so many levels.
    ghost on_card: { MOST ≤ most_levels };
}
