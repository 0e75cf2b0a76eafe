ghost use Rattle.std.specs.Prelude.{◌≤◌, length, take};
ghost use Rattle.queue.specs.Heap.{Heaped};

use crate::heap::{rise, sink};
use crate::order::Entry;
use fault::{Fault, Kind};

// Entries in cells that the caller handed in: a heap in the first `len` of them.
// Cells with a length beside them, and no map or BinaryHeap, since a queue takes no memory: a form that the rules name.
#[derive(Drop)]
pub struct Queue<'c, E: Entry> {
    cells: &'c mut [E],
    len: usize,
    pub ghost fits: { len ≤ length cells.now },
    pub ghost ordered: { Heaped E.before (take len cells.now) },
}

// A ghost field cannot name the loan that a queue was made over: `same` says of each call that it stays.
impl<'c, E: Entry> Queue<'c, E> {
    ghost use Rattle.std.specs.Prelude.{◌≡◌, MatchOption, MatchResult};
    ghost use Rattle.queue.specs.Empty.{Empty};
    ghost use Rattle.queue.specs.Full.{Full};
    ghost use Rattle.queue.specs.Held.{count, cells_of};
    ghost use Rattle.queue.specs.Put.{Put};
    ghost use Rattle.queue.specs.Taken.{Taken};

    // An empty queue over the cells.
    pub fn new(cells: &'c mut [E]) -> Queue<'c, E>
        ensures empty { Empty result }
        ensures cells { cells_of result ≡ cells.old }
        ensures same { result.cells.ghost_name ≡ cells.entry.ghost_name }
    {
        Queue { cells, len: 0 }
    }

    // How many entries it holds.
    pub fn count(&self) -> usize
        ensures { result ≡ count self.now }
    {
        self.len
    }

    // Takes an entry in, or refuses where no cell is free.
    pub fn put(&mut self, e: E) -> Result<(), Fault>
        ensures same { self.new.cells.ghost_name ≡ self.old.cells.ghost_name }
        ensures cases { MatchResult result
            (λ _. Put e self.old self.new)
            (λ f. Full self.old f × (self.new ≡ self.old)) }
    {
        let count = self.len;
        if count == self.cells.len() {
            return Err(Kind::TooSmall.at((count as u64).saturating_add(1)));
        }
        self.cells[count] = e;
        rise(&mut self.cells[..count + 1]);
        self.len = count + 1;
        Ok(())
    }

    // Gives the entry that comes first, or none where it holds none.
    pub fn take(&mut self) -> Option<E>
        ensures same { self.new.cells.ghost_name ≡ self.old.cells.ghost_name }
        ensures cases { MatchOption result
            (Empty self.old × (self.new ≡ self.old))
            (λ e. Taken e self.old self.new) }
    {
        if self.len == 0 {
            return None;
        }
        let last = self.len - 1;
        let first = self.cells[0];
        // Until the last entry has sunk, none counts as held, since the cells are no heap.
        self.len = 0;
        self.cells[0] = self.cells[last];
        sink(&mut self.cells[..last]);
        self.len = last;
        Some(first)
    }

    // Gives the cells back.
    pub fn into_cells(self) -> &'c mut [E]
        ensures cells { result.now ≡ cells_of self.entry }
        ensures same { result.ghost_name ≡ self.entry.cells.ghost_name }
    {
        let Queue { cells, len: _ } = self;
        cells
    }
}
