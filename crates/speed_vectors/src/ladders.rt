use anyhow::anyhow;
use fault::Fault;
use speed::{Even, Ladder, Listed, floor_for, full_speed, time_at};
use std::alloc::Global;
use std::fmt;

// What a listed ladder holds before it is set.
const BEFORE: [u32; 3] = [3, 50, 700];

pub fn answer_listed(heap: Global, words: &[&str]) -> anyhow::Result<String> {
    let [list, question @ ..] = words else {
        return Err(anyhow!("no speeds"));
    };
    let speeds = speeds(heap, list)?;
    let mut ladder = Listed::new();
    ladder
        .set(&BEFORE)
        .map_err(|_| anyhow!("no ladder to set"))?;
    match ladder.set(speeds.as_slice()) {
        Ok(()) => answer_made(heap, &ladder, question),
        Err(fault) => answer_refused(heap, fault, &ladder),
    }
}

// The speeds that a comma parts; none where the text is -.
fn speeds(heap: Global, list: &str) -> anyhow::Result<Vec<u32>> {
    if list == "-" {
        return Ok(Vec::new(heap));
    }
    list.split(',')
        .map(|speed| -> anyhow::Result<u32> { Ok(speed.parse::<u32>()?) })
        .try_collect(heap)
}

// A refused setting has to leave the ladder as it was.
fn answer_refused(heap: Global, fault: Fault, ladder: &Listed) -> anyhow::Result<String> {
    if holds(ladder, &BEFORE) {
        Ok(format!(in heap; "{fault}")?)
    } else {
        Ok(format!(in heap; "{fault} changed")?)
    }
}

// Whether the ladder has these speeds and no others.
fn holds(ladder: &Listed, speeds: &[u32]) -> bool {
    ladder.count() == speeds.len()
        && speeds
            .iter()
            .enumerate()
            .all(|(level, speed)| ladder.speed(level) == *speed)
}

pub fn answer_even(heap: Global, words: &[&str]) -> anyhow::Result<String> {
    let [lowest, step, count, question @ ..] = words else {
        return Err(anyhow!("not lowest, step and count"));
    };
    let lowest = lowest.parse::<u32>()?;
    let step = step.parse::<u32>()?;
    let count = count.parse::<usize>()?;
    match Even::new(lowest, step, count) {
        Ok(ladder) => answer_made(heap, &ladder, question),
        Err(fault) => Ok(format!(in heap; "{fault}")?),
    }
}

// What a ladder answers of itself, and of some work, a level and a window.
fn answer_made<L: Ladder>(heap: Global, ladder: &L, question: &[&str]) -> anyhow::Result<String> {
    let [work, level, window] = question else {
        return Err(anyhow!("not work, level and window"));
    };
    let work = work.parse::<u32>()?;
    let level = level.parse::<usize>()?;
    let window = window.parse::<u64>()?;
    let count = ladder.count();
    let full = full_speed(ladder);
    let speed = ladder.speed(level);
    let time = OrNone(time_at(ladder, work, level));
    let floor = OrNone(floor_for(ladder, work, window));
    Ok(format!(in heap; "count {count} full {full} speed {speed} time {time} floor {floor}")?)
}

// A number, or none.
#[derive(Clone, Copy)]
struct OrNone<T>(Option<T>);

impl<T: fmt::Display> fmt::Display for OrNone<T> {
    fn fmt<W: fmt::Write>(&self, f: &mut fmt::Formatter<W>) -> fmt::Result {
        match &self.0 {
            Some(number) => f.write(number),
            None => f.write_str("none"),
        }
    }
}
