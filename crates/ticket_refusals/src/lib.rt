// The refusals of document 01, each with its place.
#![tactic(auto)]

ghost use Rattle.std.specs.Prelude.{◌≡◌};

use std::fmt;

// Document 01's numbers 1 to 16 in their order, with the place: a word, a step, a loop or a statement.
#[derive(Clone, Copy)]
pub enum Refusal {
    // words
    Truncated(usize),
    TrailingBytes(usize),
    CountOutOfRange(usize),
    WordOutOfRange(usize),
    TooManyElements(usize),
    // a step
    LoopOutOfNest(usize),
    // loops
    IndexOutOfRange(usize),
    TooManyPoints(usize),
    // a statement
    SubscriptOutOfBounds(usize),
    // steps
    DependenceReversed(usize),
    TooManyLimits(usize),
    NumberOutOfRange(usize),
    // a loop of the new nest
    NewNestTooLarge(usize),
    BufferTooShort,
    // a statement
    OpaqueRule(usize),
    WrongStoreLength,
}

impl Refusal {
    ghost use Rattle.ticket_refusals.specs.Refusals.{number_of, place_of};

    // Document 01's number.
    pub fn number(self) -> usize
        ensures { result ≡ number_of self }
    {
        match self {
            Refusal::Truncated(_) => 1,
            Refusal::TrailingBytes(_) => 2,
            Refusal::CountOutOfRange(_) => 3,
            Refusal::WordOutOfRange(_) => 4,
            Refusal::TooManyElements(_) => 5,
            Refusal::LoopOutOfNest(_) => 6,
            Refusal::IndexOutOfRange(_) => 7,
            Refusal::TooManyPoints(_) => 8,
            Refusal::SubscriptOutOfBounds(_) => 9,
            Refusal::DependenceReversed(_) => 10,
            Refusal::TooManyLimits(_) => 11,
            Refusal::NumberOutOfRange(_) => 12,
            Refusal::NewNestTooLarge(_) => 13,
            Refusal::BufferTooShort => 14,
            Refusal::OpaqueRule(_) => 15,
            Refusal::WrongStoreLength => 16,
        }
    }

    // Its place; 0 where it has none.
    pub fn place(self) -> usize
        ensures { result ≡ place_of self }
    {
        match self {
            Refusal::Truncated(p) => p,
            Refusal::TrailingBytes(p) => p,
            Refusal::CountOutOfRange(p) => p,
            Refusal::WordOutOfRange(p) => p,
            Refusal::TooManyElements(p) => p,
            Refusal::LoopOutOfNest(p) => p,
            Refusal::IndexOutOfRange(p) => p,
            Refusal::TooManyPoints(p) => p,
            Refusal::SubscriptOutOfBounds(p) => p,
            Refusal::DependenceReversed(p) => p,
            Refusal::TooManyLimits(p) => p,
            Refusal::NumberOutOfRange(p) => p,
            Refusal::NewNestTooLarge(p) => p,
            Refusal::BufferTooShort => 0,
            Refusal::OpaqueRule(p) => p,
            Refusal::WrongStoreLength => 0,
        }
    }
}

// As the programs print it: number and place.
impl fmt::Display for Refusal {
    fn fmt<W: fmt::Write>(&self, f: &mut fmt::Formatter<W>) -> fmt::Result {
        write!(f, "refused {} {}", self.number(), self.place())
    }
}
