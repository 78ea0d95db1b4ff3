// Figures as they are printed.
use book::figures::{Figures, Last, Sides};
use std::fmt;

// A side of a quote, or a minus where there is none.
#[derive(Clone, Copy)]
struct Side(Option<i32>);

impl fmt::Display for Side {
    fn fmt<W: fmt::Write>(&self, f: &mut fmt::Formatter<W>) -> fmt::Result {
        match self.0 {
            Some(price) => write!(f, "{price}"),
            None => write!(f, "-"),
        }
    }
}

// The last trade, auction or spread with its stamp, or a minus where there is none.
#[derive(Clone, Copy)]
struct LastValue(Option<Last<i32>>);

impl fmt::Display for LastValue {
    fn fmt<W: fmt::Write>(&self, f: &mut fmt::Formatter<W>) -> fmt::Result {
        match self.0 {
            Some(Last { stamp, value }) => write!(f, "{value}@{stamp}"),
            None => write!(f, "-"),
        }
    }
}

// Bid and ask of the last quote with its stamp, if there is one.
#[derive(Clone, Copy)]
struct LastQuote(Option<Last<Sides>>);

impl fmt::Display for LastQuote {
    fn fmt<W: fmt::Write>(&self, f: &mut fmt::Formatter<W>) -> fmt::Result {
        match self.0 {
            Some(Last { stamp, value }) => {
                write!(f, "{} {}@{stamp}", Side(value.bid), Side(value.ask))
            }
            None => write!(f, "none"),
        }
    }
}

// The last trade, auction, spread and quote, the lots and the money.
#[derive(Clone, Copy)]
pub(crate) struct ShownFigures(pub(crate) Figures);

impl fmt::Display for ShownFigures {
    fn fmt<W: fmt::Write>(&self, f: &mut fmt::Formatter<W>) -> fmt::Result {
        let Figures {
            trade,
            auction,
            spread,
            quote,
            lots,
            money,
        } = self.0;
        write!(
            f,
            "{} {} {} {} {lots} {money}",
            LastValue(trade),
            LastValue(auction),
            LastValue(spread),
            LastQuote(quote)
        )
    }
}
