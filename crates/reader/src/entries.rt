ghost use Rattle.std.specs.Prelude.{◌≡◌, ◌-◌, map};
ghost use Rattle.model.specs.Graph.{Graph as GraphModel, entered};
ghost use Rattle.model.specs.Lists.{has};
ghost use Rattle.model.specs.Reading.{entries};
ghost use Rattle.graph.specs.Meaning.{segment_of};
ghost use Rattle.reader.specs.Answers.{passing};

use fault::{Fault, Kind};
use graph::Segment;

// Whether a segment is some segment's exit.
fn entered(segments: &[Segment], number: u32) -> bool
    ensures { result ≡ entered (map segment_of segments.now) number }
{
    segments.iter().any(
        move |segment|
            ensures { result ≡ has segment.now.exits.items number }
        { segment.exits.as_slice().contains(&number) },
    )
}

// Every segment of the `many` but the first has to be some segment's exit.
pub(crate) fn entries(segments: &[Segment], many: u32) -> Result<(), Fault>
    ensures { (g : GraphModel) → g.segments ≡ map segment_of segments.now → entries g 1 (many - 1) ≡ passing result g }
{
    for number in 1..many {
        if !entered(segments, number) {
            return Err(Kind::NoEntry.at(u64::from(number)));
        }
    }
    Ok(())
}
