// Replies and answers as they are printed.
use calls::call::Reply;
use house::answers::Settlement;
use house::faults::HouseFault;
use std::fmt;

// A refusal: its number, and the origin where it has one. What is printed of a fault is this program's own, so a newtype
// here and not the fault's own Display.
#[derive(Clone, Copy)]
struct Refusal(HouseFault);

impl fmt::Display for Refusal {
    fn fmt<W: fmt::Write>(&self, f: &mut fmt::Formatter<W>) -> fmt::Result {
        let number = self.0.number();
        match self.0 {
            HouseFault::NoPrice(origin) => write!(f, "refused {number} {origin}"),
            _ => write!(f, "refused {number}"),
        }
    }
}

// What a call was answered.
#[derive(Clone, Copy)]
pub(crate) struct Replied(pub(crate) Result<Reply, HouseFault>);

impl fmt::Display for Replied {
    fn fmt<W: fmt::Write>(&self, f: &mut fmt::Formatter<W>) -> fmt::Result {
        match self.0 {
            Ok(Reply::Done) => write!(f, "done"),
            Ok(Reply::Listed(number)) => write!(f, "listed {number}"),
            Ok(Reply::Settled { settlement, .. }) => write!(f, "{}", Shown(Ok(settlement))),
            Err(fault) => write!(f, "{}", Refusal(fault)),
        }
    }
}

// A stamp, or a minus where there is none.
#[derive(Clone, Copy)]
struct Time(Option<i32>);

impl fmt::Display for Time {
    fn fmt<W: fmt::Write>(&self, f: &mut fmt::Formatter<W>) -> fmt::Result {
        match self.0 {
            Some(stamp) => write!(f, "{stamp}"),
            None => write!(f, "-"),
        }
    }
}

// What the question for a price was answered: the price, the letter of its step, the step's place, and the time.
#[derive(Clone, Copy)]
pub(crate) struct Shown(pub(crate) Result<Settlement, HouseFault>);

impl fmt::Display for Shown {
    fn fmt<W: fmt::Write>(&self, f: &mut fmt::Formatter<W>) -> fmt::Result {
        match self.0 {
            Ok(found) => {
                let Settlement {
                    price,
                    step,
                    place,
                    time,
                } = found;
                write!(f, "price {price} {step} {place} {}", Time(time))
            }
            Err(fault) => write!(f, "{}", Refusal(fault)),
        }
    }
}
