// A refusal, as the code hands it on: why, of which file and where. What each of them means is document 01's table of replies and document 02,
// request 2; specs/Refused.antt ties the two.
#![tactic(auto)]

ghost use Rattle.std.specs.Prelude.{◌≡◌};
ghost use Rattle.refusals.specs.Refused.{number_of, source_of};

// Why a thing is refused: 1 to 7 of a set's head, its length, its marks and its levels, 81 to 84 of a TR record, 9 of an LF record, 10 of the
// records' order, 11 and 12 of a circuit, 13 of two sets, 14 to 16 of a gate, 17 of lent buffers, 18 of the input, 22 and 23 of a sequence.
#[derive(Clone, Copy, PartialEq, Eq)]
pub enum Reason {
    Head,
    Version,
    Ranges,
    Counts,
    Length,
    Mark,
    Levels,
    State,
    LeftChild,
    RightChild,
    EmptyMask,
    Leaf,
    Order,
    CircuitLength,
    Gate,
    OtherQubits,
    Sizes,
    Scale,
    Coefficients,
    Short,
    NoJob,
    Element,
    Sequence,
}

impl Reason {
    // The number that a reply gives for it.
    pub fn number(self) -> u8
        ensures { result ≡ number_of self }
    {
        match self {
            Reason::Head => 1,
            Reason::Version => 2,
            Reason::Ranges => 3,
            Reason::Counts => 4,
            Reason::Length => 5,
            Reason::Mark => 6,
            Reason::Levels => 7,
            Reason::State => 81,
            Reason::LeftChild => 82,
            Reason::RightChild => 83,
            Reason::EmptyMask => 84,
            Reason::Leaf => 9,
            Reason::Order => 10,
            Reason::CircuitLength => 11,
            Reason::Gate => 12,
            Reason::OtherQubits => 13,
            Reason::Sizes => 14,
            Reason::Scale => 15,
            Reason::Coefficients => 16,
            Reason::Short => 17,
            Reason::NoJob => 18,
            Reason::Element => 22,
            Reason::Sequence => 23,
        }
    }
}

// Which of the lent files is refused: none of them, the start set, the circuit or the end set.
#[derive(Clone, Copy, PartialEq, Eq)]
pub enum Source {
    Nothing,
    Start,
    Circuit,
    End,
}

impl Source {
    // The number that a reply gives for it.
    pub fn number(self) -> u8
        ensures { result ≡ source_of self }
    {
        match self {
            Source::Nothing => 0,
            Source::Start => 1,
            Source::Circuit => 2,
            Source::End => 3,
        }
    }
}

// Why, of which file, and the number of the record, the level or the gate that is refused, or 0.
#[derive(Clone, Copy, PartialEq, Eq)]
pub struct Refusal {
    pub reason: Reason,
    pub source: Source,
    pub place: u32,
}

impl Refusal {
    // A refusal of no file and no record.
    pub fn alone(reason: Reason) -> Refusal
        ensures { result ≡ record { reason = reason; source = Source.Nothing; place = 0 } }
    {
        Refusal {
            reason,
            source: Source::Nothing,
            place: 0,
        }
    }
}

// What is wrong with a file, and the number of the record that it is wrong with, or 0: a refusal but for which of the lent files it is.
#[derive(Clone, Copy, PartialEq, Eq)]
pub struct Fault {
    pub reason: Reason,
    pub place: u32,
}

impl Fault {
    // The refusal of a file for it.
    pub fn of(self, source: Source) -> Refusal
        ensures { result ≡ record { reason = self.reason; source = source; place = self.place } }
    {
        Refusal {
            reason: self.reason,
            source,
            place: self.place,
        }
    }
}
