// What comes into a book: one entry for each trade, auction, leg, spread or quote.
ghost use Rattle.std.specs.Prelude.{◌≡◌};
ghost use Rattle.book.specs.Entries.{allowed, kind_lawful, lots_lawful, price_lawful, side_lawful, spread_lawful, uncrossed};

use crate::days::Day;

// The largest price, in points, on either side of 0.
const PRICE_LIMIT: i64 = 1_000_000_000;

// The largest spread, in points, on either side of 0.
const SPREAD_LIMIT: i64 = 100_000_000;

// The most lots of an entry.
const LOTS_LIMIT: i64 = 100_000;

/// How many series there are at most. They are numbered from 0.
pub const SERIES: u8 = 32;

/// What an entry tells. Prices and differences are in points, a point being one thousandth.
#[derive(Clone, Copy, PartialEq, Eq, Debug)]
pub enum Kind {
    /// A trade.
    Trade {
        /// In points.
        price: i64,
        /// How many lots.
        lots: i64,
    },
    /// The closing auction of the day session.
    Auction {
        /// In points.
        price: i64,
        /// How many lots.
        lots: i64,
    },
    /// A part of a strategy trade: it counts as taken and enters no figure.
    Leg {
        /// In points.
        price: i64,
        /// How many lots.
        lots: i64,
    },
    /// A spread, entered for the far series.
    Spread {
        /// The near month less the far month, in points.
        difference: i64,
    },
    /// The best bid and ask, either of which may be missing.
    Quote {
        /// In points.
        bid: Option<i64>,
        /// In points; above the bid, where both stand.
        ask: Option<i64>,
    },
}

/// An entry. The numbers are as they came in: a book checks them.
#[derive(Clone, Copy, PartialEq, Eq, Debug)]
pub struct Entry {
    /// The number of the series, 0 to 31.
    pub series: i64,
    /// Seconds from the midnight that begins the evening session's date.
    pub stamp: i64,
    /// What is entered.
    pub kind: Kind,
}

/// Whether a number is a price: -1,000,000,000 to 1,000,000,000 points.
pub fn is_price(v: i64) -> bool
    ensures { result ≡ price_lawful v }
{
    (-PRICE_LIMIT..=PRICE_LIMIT).contains(&v)
}

/// Whether a number is a spread: -100,000,000 to 100,000,000 points.
pub fn is_spread(v: i64) -> bool
    ensures { result ≡ spread_lawful v }
{
    (-SPREAD_LIMIT..=SPREAD_LIMIT).contains(&v)
}

// Whether a number is one of lots: 1 to 100,000.
fn is_lots(n: i64) -> bool
    ensures { result ≡ lots_lawful n }
{
    (1..=LOTS_LIMIT).contains(&n)
}

/// Whether a side of a quote, or another price that may be missing, is a price or is missing.
pub fn is_side(side: Option<i64>) -> bool
    ensures { result ≡ side_lawful side }
{
    side.is_none_or(is_price)
}

// Whether the bid is under the ask, where both stand.
fn is_uncrossed(bid: Option<i64>, ask: Option<i64>) -> bool
    ensures { result ≡ uncrossed bid ask }
{
    bid.zip(ask).is_none_or(|(b, a)| b < a)
}

// Whether all numbers of an entry's kind are within their limits, and a quote is uncrossed.
pub(crate) fn is_kind_lawful(kind: Kind) -> bool
    ensures { result ≡ kind_lawful kind }
{
    match kind {
        // Three arms of one body: an or-pattern gets no proof where it binds an `i64`, which the prover then takes for unsigned.
        Kind::Trade { price, lots } => is_price(price) && is_lots(lots),
        Kind::Auction { price, lots } => is_price(price) && is_lots(lots),
        Kind::Leg { price, lots } => is_price(price) && is_lots(lots),
        Kind::Spread { difference } => is_spread(difference),
        Kind::Quote { bid, ask } => is_side(bid) && is_side(ask) && is_uncrossed(bid, ask),
    }
}

/// Whether a book of the day may take the entry: series 0 to 31, a stamp from the night opening to the close, both included, and
/// numbers within the limits of its kind.
pub fn is_allowed(day: &Day, entry: &Entry) -> bool
    ensures { result ≡ allowed day.now entry.now }
{
    // Joined by `&`: with `&&` in three parts the goal stays open.
    let series = (0..i64::from(SERIES)).contains(&entry.series);
    let stamp = (day.night..=day.close).contains(&entry.stamp);
    series & stamp & is_kind_lawful(entry.kind)
}
