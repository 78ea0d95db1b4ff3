// The trades and auctions that were taken in a day, and which answers tell one of them where another stands beside it.
use std::alloc::{AllocError, Global};
use std::str;

#[derive(Clone, Copy)]
struct Trade {
    series: i64,
    stamp: i64,
    price: i64,
}

// Which other trade of its series an answer leaves out.
#[derive(Clone, Copy)]
pub(crate) enum LeftOut {
    // By L: one of the same stamp and another price.
    OfOneStamp,
    // By V: one that is later, and so outside the window.
    LaterOutside,
}

#[derive(Drop)]
pub(crate) struct Trades {
    alloc: Global,
    taken: Vec<Trade>,
}

fn trade_by(series: &str, stamp: &str, price: &str) -> Option<Trade> {
    Some(Trade {
        series: series.parse().ok()?,
        stamp: stamp.parse().ok()?,
        price: price.parse().ok()?,
    })
}

impl Trades {
    pub(crate) fn new(alloc: Global) -> Trades {
        Trades {
            alloc,
            taken: Vec::new(alloc),
        }
    }

    // A line that was answered with `done` is kept if it is a trade or an auction.
    pub(crate) fn keep(&mut self, line: &[u8]) -> Result<(), AllocError> {
        let line = str::from_utf8(line).unwrap_or("");
        let words: Vec<&str> = line.split(' ').collect(self.alloc)?;
        if let ["trade" | "auction", series, stamp, price, _] = words.as_slice() {
            if let Some(trade) = trade_by(series, stamp, price) {
                self.taken.push(trade)?;
            }
        }
        Ok(())
    }

    // Why the answer leaves another trade out, if it does.
    pub(crate) fn left_out_by(&self, answer: &str) -> Result<Option<LeftOut>, AllocError> {
        let words: Vec<&str> = answer.split(' ').collect(self.alloc)?;
        let ["price", series, price, step, _, time] = words.as_slice() else {
            return Ok(None);
        };
        let Some(told) = trade_by(series, time, price) else {
            return Ok(None);
        };
        let mut others = self
            .taken
            .iter()
            .filter(|trade| trade.series == told.series);
        let left_out = match *step {
            "L" => others
                .any(|trade| trade.stamp == told.stamp && trade.price != told.price)
                .then_some(LeftOut::OfOneStamp),
            "V" => others
                .any(|trade| trade.stamp > told.stamp)
                .then_some(LeftOut::LaterOutside),
            _ => None,
        };
        Ok(left_out)
    }
}
