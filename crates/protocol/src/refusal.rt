// Why a call is refused. A refused call leaves everything as it was.
ghost use Rattle.std.specs.Prelude.{◌≡◌, Some};
ghost use Rattle.protocol.specs.Refusals.{number_of, words_of, why_not_made};
ghost use Rattle.protocol.specs.declared.refusal.MakeError.TheVariants.{Refused, Memory};

use std::alloc::AllocError;
use std::error::Error;
use std::fmt;

#[derive(Clone, Copy, PartialEq, Eq, PartialOrd, Ord, Debug)]
pub enum Refusal {
    // the station is not on the roll
    NotOnRoll = 1,
    // the station is out
    IsOut = 2,
    // the outbox is full
    OutboxFull = 3,
    // the turn's number is past the last one, or is not one that the station may open
    WrongTurn = 4,
    // no frame waits in the line
    LineEmpty = 5,
    // the station to enter is not out
    NotOut = 6,
    // the roll has not 1 to 8 stations
    RollSize = 7,
    // the memory for a wire has too few places
    TooFewPlaces = 8,
    // a weight is over 100, or all are 0
    WeightRange = 9,
    // the line is not one of the script's forms
    MisshapenLine = 10,
    // the first line is a command
    CommandFirst = 11,
    // the text is over 16,384 bytes
    TextTooLong = 12,
    // the buffer is shorter than the line to print
    BufferTooShort = 13,
}

impl Refusal {
    // The number that the refusal is answered by.
    pub fn number(self) -> u8
        ensures { result ≡ number_of self }
    {
        self as u8
    }
}

// The refusal in words.
impl fmt::Display for Refusal {
    ghost output = { λ refusal. Some (words_of refusal) };

    fn fmt<W: fmt::Write>(&self, f: &mut fmt::Formatter<W>) -> fmt::Result {
        match self {
            Refusal::NotOnRoll => write!(f, "the station is not on the roll"),
            Refusal::IsOut => write!(f, "the station is out"),
            Refusal::OutboxFull => write!(f, "the outbox is full"),
            Refusal::WrongTurn => write!(f, "the turn is not one that the station may open"),
            Refusal::LineEmpty => write!(f, "no frame waits in the line"),
            Refusal::NotOut => write!(f, "the station to enter is not out"),
            Refusal::RollSize => write!(f, "the roll has not 1 to 8 stations"),
            Refusal::TooFewPlaces => write!(f, "the memory for the wire has too few places"),
            Refusal::WeightRange => write!(f, "a weight is over 100, or all are 0"),
            Refusal::MisshapenLine => write!(f, "the line is not one of the script's forms"),
            Refusal::CommandFirst => write!(f, "the first line is a command"),
            Refusal::TextTooLong => write!(f, "the text is over 16,384 bytes"),
            Refusal::BufferTooShort => write!(f, "the buffer is shorter than the line"),
        }
    }
}

impl Error for Refusal {}

// Why a thing that keeps memory was not made: a refusal, or want of memory, which has no number.
#[derive(Clone, Copy, PartialEq, Eq, Debug)]
pub enum MakeError {
    Refused(Refusal),
    Memory(AllocError),
}

impl From<Refusal> for MakeError {
    ghost from_gives = { λ refusal e. e ≡ Refused refusal };

    fn from(refusal: Refusal) -> MakeError {
        MakeError::Refused(refusal)
    }
}

impl From<AllocError> for MakeError {
    ghost from_gives = { λ error e. e ≡ Memory error };

    fn from(error: AllocError) -> MakeError {
        MakeError::Memory(error)
    }
}

impl fmt::Display for MakeError {
    ghost output = { λ error. Some (why_not_made error) };

    fn fmt<W: fmt::Write>(&self, f: &mut fmt::Formatter<W>) -> fmt::Result {
        match self {
            MakeError::Refused(refusal) => write!(f, "{refusal}"),
            MakeError::Memory(_) => write!(f, "memory is wanting"),
        }
    }
}

impl Error for MakeError {}
