use crate::ladders::{answer_even, answer_listed};
use crate::policies::{answer_greedy, answer_two_step};
use anyhow::anyhow;
use cases::Case;
use std::alloc::Global;

// A case of a ladder or a policy.
pub struct Speed;

impl Case for Speed {
    // What a case answers.
    fn answer(heap: Global, line: &str) -> anyhow::Result<String> {
        let words: Vec<&str> = line.split(' ').collect(heap)?;
        match words.as_slice() {
            ["listed", rest @ ..] => answer_listed(heap, rest),
            ["even", rest @ ..] => answer_even(heap, rest),
            ["greedy", rest @ ..] => answer_greedy(heap, rest),
            ["twostep", rest @ ..] => answer_two_step(heap, rest),
            _ => Err(anyhow!("neither a ladder nor a policy")),
        }
    }
}
