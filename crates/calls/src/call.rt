// The calls of a house as values, and the replies to them.
use book::entries::Entry;
use house::answers::Settlement;
use house::phases::Bell;
use house::terms::Listing;
use rows::places::Edition;

/// A call of a house. A series is named by its number, which the house may not have listed.
#[derive(Clone, Copy, PartialEq, Eq, Debug)]
pub enum Call {
    /// Lists a series on these terms.
    List(Listing),
    /// Begins or ends trading.
    Ring(Bell),
    /// Enters an entry in the book.
    Enter(Entry),
    /// Supplies the theory value of a series, or clears it.
    SetTheory {
        /// The number of the series.
        series: i64,
        /// In points; `None` clears.
        value: Option<i64>,
    },
    /// Supplies the ruling of a series, or clears it. Value and mark are two fields, since a cleared ruling with a mark is a call
    /// too, and refused.
    SetRuling {
        /// The number of the series.
        series: i64,
        /// In points; `None` clears.
        value: Option<i64>,
        /// Whether the ruling comes before the row of steps, with nothing else looked at.
        first: bool,
    },
    /// Asks for the settlement price of a series.
    Settle {
        /// The number of the series.
        series: i64,
        /// The edition for which it is asked.
        edition: Edition,
    },
}

/// What a call that is not refused replies.
#[derive(Clone, Copy, PartialEq, Eq, Debug)]
pub enum Reply {
    /// The call was carried out, and there is nothing to tell of it.
    Done,
    /// The number under which a series was listed.
    Listed(u8),
    /// The answer to a question.
    Settled {
        /// The series as the question named it.
        series: i64,
        /// Its price, the step and place that decided, and the time of the evidence.
        settlement: Settlement,
    },
}
