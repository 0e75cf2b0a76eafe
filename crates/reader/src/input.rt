ghost use Rattle.std.specs.Prelude.{◌≡◌, [], IfOk, length, vec_items, vec_len};
ghost use Rattle.model.specs.Bytes.{at, string, several};
ghost use Rattle.model.specs.Numbers.{number};
ghost use Rattle.model.specs.Reading.{ranged, next_rising, nothing_left};
ghost use Rattle.reader.specs.Answers.{Takes, Reads, passing};

use fault::{Error, Fault, Kind};
use number::{place_of, read_number};
use std::alloc::Global;

// The bytes of a run of `count` that are left, and the heap for what is read from them. Each reader goes on to the
// bytes after what it read.
#[derive(Drop)]
pub(crate) struct Input<'a> {
    pub(crate) heap: Global,
    count: usize,
    rest: &'a [u8],
}

impl<'a> Input<'a> {
    // All of a run.
    pub(crate) fn new(heap: Global, bytes: &'a [u8]) -> Input<'a>
        ensures { (result.count ≡ length bytes.now) × (result.rest.now ≡ bytes.now) }
    {
        Input {
            heap,
            count: bytes.len(),
            rest: bytes,
        }
    }

    // Where the bytes that are left begin.
    fn place(&self) -> u64
        ensures { result ≡ at self.now.count self.now.rest.now }
    {
        place_of(self.count, self.rest)
    }

    fn number(&mut self) -> Result<u32, Fault>
        ensures { Takes (number self.old.count) self.old result self.new }
    {
        let (n, rest) = read_number(self.count, self.rest)?;
        self.rest = rest;
        Ok(n)
    }

    // A number from `low` to `high`.
    pub(crate) fn ranged(&mut self, low: usize, high: usize) -> Result<u32, Fault>
        ensures { Takes (ranged self.old.count low high) self.old result self.new }
    {
        let place = self.place();
        let n = self.number()?;
        if !(low..=high).contains(&(n as usize)) {
            return Err(Kind::OutOfRange.at(place));
        }
        Ok(n)
    }

    // The next number of a rising list: at least `least`, and below `top`, else a fault of the kind `over`.
    fn next_rising(&mut self, least: u32, top: u32, over: Kind) -> Result<u32, Fault>
        ensures { Takes (next_rising self.old.count over least top []) self.old result self.new }
    {
        let place = self.place();
        let n = self.number()?;
        if n >= top {
            return Err(over.at(place));
        }
        if n < least {
            return Err(Kind::NotRising.at(place));
        }
        Ok(n)
    }

    // A rising list of `many` numbers, from `least` on and below `top`. One loop for all kinds of list would be no plainer:
    // each kind would need a closure or a type with clauses on what a turn hands on to the next. And `len` stands in each
    // list's contract, since a type whose field it were would only hand it on, where the Vec is taken out of it at once.
    pub(crate) fn rising(
        &mut self,
        many: u32,
        least: u32,
        top: u32,
        over: Kind,
    ) -> Result<Vec<u32>, Error>
        ensures reads { Reads vec_items (several (next_rising self.old.count over least top) many []) self.old result self.new }
        ensures len { IfOk result (λ v. vec_len v ≡ many) }
    {
        let mut numbers = Vec::new(self.heap);
        let mut lowest = least;
        for _i in 0..many {
            let n = self.next_rising(lowest, top, over)?;
            numbers.push(n)?;
            lowest = n + 1;
        }
        Ok(numbers)
    }

    // A name of `size` bytes.
    pub(crate) fn name(&mut self, size: u32) -> Result<Vec<u8>, Error>
        ensures reads { Reads vec_items (string self.old.count size) self.old result self.new }
        ensures len { IfOk result (λ v. vec_len v ≡ size) }
    {
        let Some((front, rest)) = self.rest.split_at_checked(size as usize) else {
            return Err(Kind::BytesEnd.at(self.count as u64).into());
        };
        self.rest = rest;
        Ok(Vec::from_slice(self.heap, front)?)
    }

    // Nothing may follow the last number.
    pub(crate) fn nothing_left(&self) -> Result<(), Fault>
        ensures { nothing_left self.now.count self.now.rest.now ≡ passing result (tt, []) }
    {
        if self.rest.is_empty() {
            return Ok(());
        }
        Err(Kind::TrailingBytes.at(self.place()))
    }
}
