// Bytes from hexadecimal digits. The kit's crate `hex` takes letters in either case, and not in one alone.
#![tactic(auto)]

mod letters;
mod pair;
#[cfg(test)]
mod tests;
mod word;

pub use letters::Letters;
pub use word::{read_word, unhex, word_bytes};
