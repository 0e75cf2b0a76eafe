ghost use Rattle.std.specs.Prelude.{◌≡◌, IfOk, Some, is_ok};
ghost use Rattle.model.specs.Reading.{reading};
ghost use Rattle.graph.specs.Whole.{graph_of};
ghost use Rattle.bagplan.specs.Printed.{said, printed};
ghost use Rattle.bagplan.specs.Table.{numbers_text, table_text};

use fault::{Error, Fault};
use graph::Graph;
use reader::read_graph;
use std::alloc::{AllocError, Global};
use std::fmt;

// The reading of a plan's bytes: a graph, which prints as a table, or a refusal, which prints as a line.
#[derive(Drop)]
pub struct Report(Result<Graph, Fault>);

// The report on a plan's bytes.
pub fn report_on(heap: Global, bytes: &[u8]) -> Result<Report, AllocError>
    ensures { IfOk result (λ r. said r ≡ reading bytes.now) }
{
    match read_graph(heap, bytes) {
        Ok(graph) => Ok(Report(Ok(graph))),
        Err(Error::Refused(fault)) => Ok(Report(Err(fault))),
        Err(Error::OutOfMemory) => Err(AllocError),
    }
}

impl Report {
    pub fn is_accepted(&self) -> bool
        ensures { result ≡ is_ok (said self.now) }
    {
        self.0.is_ok()
    }
}

impl fmt::Display for Report {
    ghost output = { λ r. Some (printed (said r)) };

    fn fmt<W: fmt::Write>(&self, f: &mut fmt::Formatter<W>) -> fmt::Result {
        match &self.0 {
            Ok(graph) => write!(f, "{}", Table(graph)),
            Err(fault) => writeln!(f, "{fault}"),
        }
    }
}

// A line on the whole plan, a header, and a row for each task in plan order.
#[derive(Clone, Copy)]
struct Table<'g>(&'g Graph);

impl fmt::Display for Table<'_> {
    ghost output = { λ t. Some (table_text (graph_of t.0.now)) };

    fn fmt<W: fmt::Write>(&self, f: &mut fmt::Formatter<W>) -> fmt::Result {
        let Table(graph) = self;
        let cores = graph.cores;
        let deadline = graph.deadline;
        let segments = graph.segments.len();
        writeln!(f, "cores {cores} deadline {deadline} segments {segments}")?;
        writeln!(f, "segment task worst predecessors")?;
        for (s, segment) in graph.segments.iter().enumerate() {
            for (t, task) in segment.tasks.iter().enumerate() {
                let worst = task.worst;
                let predecessors = Commas(task.predecessors.as_slice());
                writeln!(f, "{s} {t} {worst} {predecessors}")?;
            }
        }
        Ok(())
    }
}

// Numbers parted by commas, or - where there are none. By a loop: no contract says what the library's joining writes.
#[derive(Clone, Copy)]
struct Commas<'n>(&'n [u32]);

impl fmt::Display for Commas<'_> {
    ghost output = { λ n. Some (numbers_text n.0.now) };

    fn fmt<W: fmt::Write>(&self, f: &mut fmt::Formatter<W>) -> fmt::Result {
        let [first, more @ ..] = self.0 else {
            return f.write_str("-");
        };
        write!(f, "{first}")?;
        for number in more {
            write!(f, ",{number}")?;
        }
        Ok(())
    }
}
