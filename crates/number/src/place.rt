ghost use Rattle.std.specs.Prelude.{◌≡◌};
ghost use Rattle.model.specs.Bytes.{at};

// Where the bytes that are left begin, of a run of `count`.
pub fn place_of(count: usize, rest: &[u8]) -> u64
    ensures { result ≡ at count rest.now }
{
    count.saturating_sub(rest.len()) as u64
}
