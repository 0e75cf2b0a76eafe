ghost use Rattle.std.specs.Prelude.{◌≡◌, IfOk, Some, vec_items};
ghost use Rattle.std.specs.Option.{option_map};
ghost use Rattle.digits.specs.declared.letters.Letters.TheVariants.{Either};
ghost use Rattle.digits.specs.Hex.{bytes_of, word_bytes};

use crate::letters::Letters;
use crate::pair::byte_of;
use anyhow::Context;
use std::alloc::{AllocError, Global};

// The bytes that a word of a test stands for, or an error where it stands for none.
pub fn read_word(heap: Global, text: &str) -> anyhow::Result<Vec<u8>>
    ensures { IfOk result (λ v. Some v.items ≡ word_bytes Either text.now) }
{
    word_bytes(heap, Letters::Either, text)?.context("not pairs of hexadecimal digits")
}

// Pairs of digits, or - for no bytes.
pub fn word_bytes(heap: Global, letters: Letters, text: &str) -> Result<Option<Vec<u8>>, AllocError>
    ensures { IfOk result (λ o. option_map vec_items o ≡ word_bytes letters text.now) }
{
    if text == "-" {
        return Ok(Some(Vec::new(heap)));
    }
    pairs(heap, letters, text)
}

// The bytes that pairs of digits stand for, letters in either case; None where a digit is wrong or one is left over.
pub fn unhex(heap: Global, text: &str) -> Result<Option<Vec<u8>>, AllocError>
    ensures { IfOk result (λ o. option_map vec_items o ≡ bytes_of Either text.now) }
{
    pairs(heap, Letters::Either, text)
}

fn pairs(heap: Global, letters: Letters, text: &str) -> Result<Option<Vec<u8>>, AllocError>
    ensures { IfOk result (λ o. option_map vec_items o ≡ bytes_of letters text.now) }
{
    let mut bytes = Vec::new(heap);
    for pair in text.as_bytes().chunks_exact(2) {
        let Some(byte) = byte_of(letters, pair[0], pair[1]) else {
            return Ok(None);
        };
        bytes.push(byte)?;
    }
    if text.len() % 2 == 0 {
        Ok(Some(bytes))
    } else {
        Ok(None)
    }
}
