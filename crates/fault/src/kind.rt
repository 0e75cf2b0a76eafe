ghost use Rattle.std.specs.Prelude.{◌≡◌};
ghost use Rattle.fault.specs.Card.{number, layer, fault};

// The part of the product that refuses.
#[derive(Clone, Copy, PartialEq, Eq, Debug)]
pub enum Layer {
    Bytes,
    Plan,
    Ladder,
    Frame,
}

// One line of the fault card.
#[derive(Clone, Copy, PartialEq, Eq, Debug)]
pub enum Kind {
    BytesEnd = 1,
    NumberForm = 2,
    OutOfRange = 3,
    NotRising = 4,
    TrailingBytes = 5,
    NoEntry = 6,
    TooSmall = 7,
    OverDeadline = 8,
    LadderForm = 9,
    StartDue = 10,
    NoStartDue = 11,
    CoreIdle = 12,
    BeforeClock = 13,
    AfterPromise = 14,
    NoChoiceDue = 15,
    NoExit = 16,
}

impl Kind {
    // The number of this line of the card.
    pub fn number(self) -> u8
        ensures { result ≡ number self }
    {
        self as u8
    }

    // The layer that refuses with this line of the card.
    pub fn layer(self) -> Layer
        ensures { result ≡ layer self }
    {
        match self {
            Kind::BytesEnd | Kind::NumberForm => Layer::Bytes,
            Kind::OutOfRange
            | Kind::NotRising
            | Kind::TrailingBytes
            | Kind::NoEntry
            | Kind::TooSmall
            | Kind::OverDeadline => Layer::Plan,
            Kind::LadderForm => Layer::Ladder,
            Kind::StartDue
            | Kind::NoStartDue
            | Kind::CoreIdle
            | Kind::BeforeClock
            | Kind::AfterPromise
            | Kind::NoChoiceDue
            | Kind::NoExit => Layer::Frame,
        }
    }

    // A refusal of this kind, with the place that it carries.
    pub fn at(self, place: u64) -> Fault
        ensures { result ≡ fault self place }
    {
        Fault { kind: self, place }
    }
}

// A refusal: which line of the card, and the place that the card has it carry.
#[derive(Clone, Copy, PartialEq, Eq, Debug)]
pub struct Fault {
    pub kind: Kind,
    pub place: u64,
}
