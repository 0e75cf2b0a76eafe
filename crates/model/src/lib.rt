// What the product means: graphs, their bytes and their schedules, ladders and policies, and the laws over them. No code
// runs here.
#![tactic(auto)]

pub mod frames;
pub mod ladders;
pub mod plans;
pub mod schedule;

ghost use Rattle.model.specs.Laws.{NumbersReadBack, NumbersTakeTheirBytes, GraphsReadAreFormed, GraphsTakeTheirBytes, GraphsReadBack, RefusalsAreOnTheCard, PlansCutShortEndInside, BytesAfterAPlanAreRefused, FaultsStandAtTheirNumbers, NoEntryNamesTheLowest};
ghost use Rattle.model.specs.Places.{WellFormedPlaceByPlace, PlaceByPlaceWellFormed};

// A number written and read back is itself, and the bytes after it are untouched.
pub fn numbers_read_back()
    ensures { NumbersReadBack }
{}

// What is read takes exactly the bytes that would be written for it.
pub fn numbers_take_their_bytes()
    ensures { NumbersTakeTheirBytes }
{}

// A graph that is read is well-formed.
pub fn graphs_read_are_formed()
    ensures { GraphsReadAreFormed }
{}

// Bytes that read without fault are the bytes of their graph.
pub fn graphs_take_their_bytes()
    ensures { GraphsTakeTheirBytes }
{}

// The bytes of a well-formed graph read back to it.
pub fn graphs_read_back()
    ensures { GraphsReadBack }
{}

// A refusal carries a place that the card allows.
pub fn refusals_are_on_the_card()
    ensures { RefusalsAreOnTheCard }
{}

// A plan cut short ends inside: every shorter beginning of its bytes is refused with the count of bytes that are left.
pub fn plans_cut_short_end_inside()
    ensures { PlansCutShortEndInside }
{}

// Bytes after a plan are refused at the first of them.
pub fn bytes_after_a_plan_are_refused()
    ensures { BytesAfterAPlanAreRefused }
{}

// A fault stands at its number: it is the first in byte order, and is known just when the number's last byte is.
pub fn faults_stand_at_their_numbers()
    ensures { FaultsStandAtTheirNumbers }
{}

// Bytes are refused for want of an entry exactly where their numbers are those of a graph, at its lowest segment that is nobody's exit.
pub fn no_entry_names_the_lowest()
    ensures { NoEntryNamesTheLowest }
{}

// A well-formed graph keeps every limit and order at every place.
pub fn well_formed_place_by_place()
    ensures { WellFormedPlaceByPlace }
{}

// A graph that keeps every limit and order at every place is well-formed.
pub fn place_by_place_well_formed()
    ensures { PlaceByPlaceWellFormed }
{}
