ghost use Rattle.std.specs.Prelude.{◌≡◌, ℕ, ◌^◌, ◌<◌, List, [], ◌∷◌, length};
ghost use Rattle.std.specs.List.{flat_map};
ghost use Rattle.model.specs.Numbers.{number_bytes};
ghost use Rattle.model.specs.Writing.{listed};
ghost use Rattle.writer.specs.Laid.{Lays, Countable};

use number::Groups;

// A run of bytes, and the place that the next one is laid at. Past the run's end bytes are only counted, so that an
// empty run tells how many there are.
#[derive(Drop)]
pub(crate) struct Run<'o> {
    out: &'o mut [u8],
    pub(crate) at: usize,
}

// What is laid over a run.
pub(crate) trait Put {
    ghost bytes: { Self → List ℕ };

    fn put(&self, run: &mut Run<'_>)
        requires { Countable run.old (bytes self.now) }
        ensures { Lays (bytes self.now) run.old run.new };
}

impl<'o> Run<'o> {
    pub(crate) fn new(out: &'o mut [u8]) -> Run<'o>
        ensures same_reference { result.out.ghost_name ≡ out.entry.ghost_name }
        ensures at { result.at ≡ 0 }
        ensures out { result.out.now ≡ out.old }
    {
        Run { out, at: 0 }
    }

    // One after the other.
    fn each<T: Put>(&mut self, items: &[T])
        requires { Countable self.old (flat_map T.bytes items.now) }
        ensures { Lays (flat_map T.bytes items.now) self.old self.new }
    {
        for item in items {
            item.put(self);
        }
    }

    // How many, and then each.
    pub(crate) fn list<T: Put>(&mut self, items: &[T])
        requires { (length items.now < 2 ^ 32) × (Countable self.old (listed T.bytes items.now)) }
        ensures { Lays (listed T.bytes items.now) self.old self.new }
    {
        (items.len() as u32).put(self);
        self.each(items);
    }
}

impl Put for u8 {
    ghost bytes = { λ b. b ∷ [] };

    fn put(&self, run: &mut Run<'_>) {
        // By index: after `get_mut` no proof knows what the run holds.
        if run.at < run.out.len() {
            run.out[run.at] = *self;
        }
        run.at += 1;
    }
}

impl Put for u32 {
    ghost bytes = { λ n. number_bytes n };

    fn put(&self, run: &mut Run<'_>) {
        run.each(Groups::new(*self).as_slice());
    }
}
