// Lines in, answers out.
use crate::grammar::{Call, call_of};
use crate::houses::{House, Reply};
use crate::refusals::{Refusal, Stop};
use std::alloc::{AllocError, Global};
use std::fmt;

// A book of the day has at most so many places.
const MOST_PLACES: usize = 30_000;

/// A second settlement of one day of lines.
#[derive(Drop)]
pub struct Second {
    alloc: Global,
    places: usize,
    house: Option<House>,
}

impl Second {
    /// Before its first day line. The book of the day will have so many places.
    pub fn new(alloc: Global, places: usize) -> Second {
        Second {
            alloc,
            places: places.min(MOST_PLACES),
            house: None,
        }
    }

    /// The answer to a line that is handed over without its newline.
    pub fn answer(&mut self, line: &[u8]) -> Result<String, AllocError> {
        let alloc = self.alloc;
        match self.reply(line) {
            Ok(reply) => format!(in alloc; "{reply}"),
            Err(Stop::Refused(refusal)) => format!(in alloc; "refused {refusal}"),
            Err(Stop::Memory(error)) => Err(error),
        }
    }

    fn reply(&mut self, line: &[u8]) -> Result<Reply, Stop> {
        let call = call_of(self.alloc, line)?;
        match &mut self.house {
            Some(house) => house.take(call),
            None => self.begin(call),
        }
    }

    // Before the day line was taken, that is the only call there is.
    fn begin(&mut self, call: Call) -> Result<Reply, Stop> {
        let Call::Day { record, ticks } = call else {
            return Err(Stop::Refused(Refusal::Phase));
        };
        self.house = Some(House::new(self.alloc, record, ticks, self.places)?);
        Ok(Reply::Done)
    }
}

impl fmt::Display for Reply {
    fn fmt<W: fmt::Write>(&self, f: &mut fmt::Formatter<W>) -> fmt::Result {
        match *self {
            Reply::Done => write!(f, "done"),
            Reply::Listed(number) => write!(f, "listed {number}"),
            Reply::Settled(series, settlement) => {
                let price = settlement.price;
                let step = settlement.step;
                let place = settlement.place;
                write!(f, "price {series} {price} {step} {place} ")?;
                match settlement.time {
                    Some(stamp) => write!(f, "{stamp}"),
                    None => write!(f, "-"),
                }
            }
        }
    }
}
