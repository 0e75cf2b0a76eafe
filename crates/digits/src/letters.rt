// Which letters stand for ten to fifteen: a to f alone, or A to F too.
#[derive(Clone, Copy, PartialEq, Eq, Debug)]
pub enum Letters {
    Lower,
    Either,
}
