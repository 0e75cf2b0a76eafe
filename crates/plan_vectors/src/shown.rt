use itertools::Itertools;
use lines::{Line, lines_of};
use plan::Plan;
use schedule::{Start, Timeline};
use std::alloc::{AllocError, Global};
use std::fmt;

// What the tables of a plan say, its shifts and its line records.
pub fn shown(heap: Global, plan: &Plan) -> Result<String, AllocError> {
    let needed = plan.remaining.first().copied().unwrap_or(0);
    let timelines = &plan.timelines;
    let lengths = timelines
        .iter()
        .map(|timeline| timeline.length)
        .join(heap, ",")?;
    let remaining = plan.remaining.iter().join(heap, ",")?;
    let segments = 0..plan.graph.segments.len();
    let shifts = segments.map(|segment| plan.shift(segment)).join(heap, ",")?;
    let starts = timelines
        .iter()
        .map(|timeline| Part(timeline))
        .join(heap, "/")?;
    let records = lines_of(heap, plan)?;
    let lines = records.iter().map(|record| Part(record)).join(heap, ",")?;
    format!(in heap;
        "needed {needed} lengths {lengths} remaining {remaining} shifts {shifts} starts {starts} lines {lines}"
    )
}

// A part of a plan, as an answer shows it.
#[derive(Clone, Copy)]
struct Part<'p, T>(&'p T);

// The starts in canonical order.
impl fmt::Display for Part<'_, Timeline> {
    fn fmt<W: fmt::Write>(&self, f: &mut fmt::Formatter<W>) -> fmt::Result {
        f.write_joined(self.0.starts.iter().map(|start| Part(start)), ",")
    }
}

impl fmt::Display for Part<'_, Start> {
    fn fmt<W: fmt::Write>(&self, f: &mut fmt::Formatter<W>) -> fmt::Result {
        let Start { task, at, core } = *self.0;
        write!(f, "{task}:{at}:{core}")
    }
}

impl fmt::Display for Part<'_, Line> {
    fn fmt<W: fmt::Write>(&self, f: &mut fmt::Formatter<W>) -> fmt::Result {
        let Line {
            segment,
            task,
            order,
            start,
            end,
        } = *self.0;
        write!(f, "{segment}:{task}:{order}:{start}:{end}")
    }
}
