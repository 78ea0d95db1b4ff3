// What a call is refused with.
use std::alloc::{AllocError, AllocFailed};
use std::fmt;

#[derive(Clone, Copy)]
pub(crate) enum Refusal {
    Day,
    Phase,
    ListFull,
    NoSeries,
    Terms,
    Limits,
    OffLadder,
    NoSpreads,
    BookFull,
    NoPrice { origin: usize },
    Grammar { place: usize },
    Ladders,
}

impl fmt::Display for Refusal {
    fn fmt<W: fmt::Write>(&self, f: &mut fmt::Formatter<W>) -> fmt::Result {
        match *self {
            Refusal::Day => write!(f, "1"),
            Refusal::Phase => write!(f, "2"),
            Refusal::ListFull => write!(f, "3"),
            Refusal::NoSeries => write!(f, "4"),
            Refusal::Terms => write!(f, "5"),
            Refusal::Limits => write!(f, "6"),
            Refusal::OffLadder => write!(f, "7"),
            Refusal::NoSpreads => write!(f, "8"),
            Refusal::BookFull => write!(f, "9"),
            Refusal::NoPrice { origin } => write!(f, "10 {origin}"),
            Refusal::Grammar { place } => write!(f, "11 {place}"),
            Refusal::Ladders => write!(f, "13"),
        }
    }
}

// Why a call has no reply: it is refused, or there is no memory to work it out.
#[derive(Clone, Copy)]
pub(crate) enum Stop {
    Refused(Refusal),
    Memory(AllocError),
}

impl From<Refusal> for Stop {
    fn from(refusal: Refusal) -> Stop {
        Stop::Refused(refusal)
    }
}

impl From<AllocError> for Stop {
    fn from(error: AllocError) -> Stop {
        Stop::Memory(error)
    }
}

impl<T: Drop> From<AllocFailed<T>> for Stop {
    fn from(failed: AllocFailed<T>) -> Stop {
        Stop::Memory(AllocError::from(failed))
    }
}
