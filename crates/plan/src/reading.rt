ghost use Rattle.std.specs.Prelude.{◌≡◌, length, Ok};
ghost use Rattle.fault.specs.Answers.{Answers, Refuses, WhereUndone};
ghost use Rattle.fault.specs.Card.{OnCard};
ghost use Rattle.graph.specs.Whole.{graph_of};
ghost use Rattle.model.specs.Accepting.{fresh, accepting, plan_reading};
ghost use Rattle.model.specs.Limits.{most_cores, most_tasks};

use crate::lengths::remaining_lengths;
use crate::place::Plan;
use fault::{Error, Kind};
use graph::Graph;
use queue::{Ready, Running};
use reader::read_graph;
use schedule::schedule;
use std::alloc::Global;

// The plan of a graph: its schedule is laid out in the cells, and has to fit in the deadline.
fn lay_out(
    heap: Global,
    graph: Graph,
    ready: &mut [Ready],
    running: &mut [Running],
) -> Result<Plan, Error>
    ensures { Answers (λ p. graph_of p.graph) result (accepting (length ready.old) (length running.old) (graph_of graph)) }
{
    let timelines = schedule(heap, &graph, ready, running)?;
    let remaining = remaining_lengths(heap, &graph, timelines.as_slice())?;
    let needed = remaining[0];
    if needed > u64::from(graph.deadline) {
        return Err(Kind::OverDeadline.at(needed).into());
    }
    Ok(Plan {
        graph,
        timelines,
        remaining,
    })
}

// The plan that the bytes describe. That a refusal is on the card is a clause, and not a field of `Fault`, which asks
// nothing of who makes one.
fn plan_of(
    heap: Global,
    bytes: &[u8],
    ready: &mut [Ready],
    running: &mut [Running],
) -> Result<Plan, Error>
    ensures answer { Answers (λ p. graph_of p.graph) result (plan_reading (length ready.old) (length running.old) bytes.now) }
    ensures carries { Refuses result OnCard }
{
    let graph = read_graph(heap, bytes)?;
    lay_out(heap, graph, ready, running)
}

// The bytes of the plan that a fresh place holds.
const FRESH: [u8; 8] = [1, 0, 1, 1, 0, 0, 0, 0];

impl Plan {
    // A fresh place: a plan of one core, deadline 0 and one nameless task of worst 0.
    pub fn new(heap: Global) -> Result<Plan, Error>
        ensures { Answers (λ p. graph_of p.graph) result (Ok fresh) }
    {
        let mut ready = [Ready::default()];
        let mut running = [Running::default()];
        plan_of(heap, &FRESH, &mut ready, &mut running)
    }

    // The plan that the bytes describe, in a place of its own. The cells are enough for every plan.
    pub fn from_bytes(heap: Global, bytes: &[u8]) -> Result<Plan, Error>
        ensures answer { Answers (λ p. graph_of p.graph) result (plan_reading most_tasks most_cores bytes.now) }
        ensures carries { Refuses result OnCard }
    {
        let mut ready = [Ready::default(); 256];
        let mut running = [Running::default(); 8];
        plan_of(heap, bytes, &mut ready, &mut running)
    }

    // Reads a plan from its bytes into the place, with as many ready cells as the largest segment has tasks and as
    // many running cells as there are cores. Refused, or without memory, the place keeps its plan.
    pub fn read(
        &mut self,
        heap: Global,
        bytes: &[u8],
        ready: &mut [Ready],
        running: &mut [Running],
    ) -> Result<(), Error>
        ensures answer { Answers (λ _. graph_of self.new.graph) result (plan_reading (length ready.old) (length running.old) bytes.now) }
        ensures kept { WhereUndone result (self.new ≡ self.old) }
        ensures carries { Refuses result OnCard }
    {
        *self = plan_of(heap, bytes, ready, running)?;
        Ok(())
    }
}
