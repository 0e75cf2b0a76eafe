use anyhow::anyhow;
use speed::{Greedy, Policy, TwoStep};
use std::alloc::Global;

pub fn answer_greedy(heap: Global, words: &[&str]) -> anyhow::Result<String> {
    answer_level(heap, &Greedy, words)
}

pub fn answer_two_step(heap: Global, words: &[&str]) -> anyhow::Result<String> {
    let [switch, first, second, question @ ..] = words else {
        return Err(anyhow!("not a switch and two levels"));
    };
    let policy = TwoStep {
        switch: switch.parse::<u64>()?,
        first: first.parse::<usize>()?,
        second: second.parse::<usize>()?,
    };
    answer_level(heap, &policy, question)
}

fn answer_level<P: Policy>(heap: Global, policy: &P, question: &[&str]) -> anyhow::Result<String> {
    let [task, time, floor, top] = question else {
        return Err(anyhow!("not task, time, floor and top"));
    };
    let task = task.parse::<u32>()?;
    let time = time.parse::<u64>()?;
    let floor = floor.parse::<usize>()?;
    let top = top.parse::<usize>()?;
    let level = policy.level(task, time, floor, top);
    Ok(format!(in heap; "level {level}")?)
}
