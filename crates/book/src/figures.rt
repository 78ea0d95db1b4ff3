// The figures of one series and window.
ghost use Rattle.std.specs.Prelude.{◌≡◌, ◌≤◌, true, false, ◌*ℤ◌, MatchOption, unsigned_abs};
ghost use Rattle.book.specs.Entries.{kind_lawful, lots_lawful, price_lawful, side_lawful};
ghost use Rattle.book.specs.Figures.{empty, entered_if, latest, with_entry, entered_sound, roomy, sound, stamp_small, traded};

use crate::entries::{Entry, Kind, is_kind_lawful};
use crate::lawful::DAY_END;
use std::marker::Model;

// What the sums of 30,000 entries keep within: lots, and points times lots.
const MOST_LOTS: u64 = 3_000_000_000;

const MOST_MONEY: u64 = 3_000_000_000_000_000_000;

/// A last figure with its stamp.
#[derive(Clone, Copy, PartialEq, Eq, Debug)]
pub struct Last<V> {
    /// Seconds from the midnight that begins the evening session's date.
    pub stamp: i32,
    /// A price or a spread in points, or the sides of a quote.
    pub value: V,
}

/// The best bid and ask, either of which may be missing.
#[derive(Clone, Copy, PartialEq, Eq, Debug)]
pub struct Sides {
    /// In points.
    pub bid: Option<i32>,
    /// In points.
    pub ask: Option<i32>,
}

/// The figures of one series and window. Stamps and prices are in 32 bits, so that a table of all series and windows stays small.
#[derive(Clone, Copy, Default, PartialEq, Eq, Debug)]
pub struct Figures {
    /// The last trade's price in points; an auction is a trade too.
    pub trade: Option<Last<i32>>,
    /// The last auction's price in points.
    pub auction: Option<Last<i32>>,
    /// The last spread in points.
    pub spread: Option<Last<i32>>,
    /// The sides of the last quote.
    pub quote: Option<Last<Sides>>,
    /// All lots of the trades and auctions.
    pub lots: i64,
    /// The sum of price times lots over the trades and auctions, in points.
    pub money: i64,
}

// The later of a last figure and a new one; of equal stamps the new one is last.
fn latest<V: Copy>(old: Option<Last<V>>, stamp: i32, value: V) -> Option<Last<V>>
    ensures { result ≡ latest old stamp value }
{
    match old {
        Some(last) if stamp < last.stamp => Some(last),
        _ => Some(Last { stamp, value }),
    }
}

// A number within the price limit, in 32 bits.
fn short(v: i64) -> i32
    requires { price_lawful v ≡ true }
    ensures { result ≡ v }
{
    v as i32
}

fn short_side(side: Option<i64>) -> Option<i32>
    requires { side_lawful side ≡ true }
    ensures { result ≡ side }
{
    side.map(short)
}

// The price and the lots of a trade, within their limits.
#[derive(Clone, Copy)]
struct Deal {
    price: i64,
    lots: i64,
    ghost priced: { price_lawful price ≡ true },
    ghost sized: { lots_lawful lots ≡ true },
}

impl Deal {
    // Price times lots.
    fn worth(self) -> i64
        ensures value { result ≡ self.price *ℤ self.lots }
        ensures bound { unsigned_abs result ≤ 100000000000000 }
    {
        self.price * self.lots
    }
}

/// An entry whose stamp and numbers are within the limits of any day. Contracts see it as the entry.
#[derive(Clone, Copy)]
pub struct SoundEntry {
    entry: Entry,
}

impl Model for SoundEntry {
    ghost use Rattle.std.specs.Prelude.{◌≡◌, true};
    ghost use Rattle.book.specs.Figures.{sound};
    ghost use Rattle.book.specs.declared.entries.Entry.{Entry};

    ghost Value = { Entry };

    ghost view = { λ s. s.entry };

    ghost invariant = { λ s. sound s.entry ≡ true };

    ghost inverse = { λ e. record { entry = e } };
}

impl SoundEntry {
    /// The entry, if it is within the limits of any day.
    pub fn new(entry: &Entry) -> Option<SoundEntry>
        ensures { MatchOption result (sound entry.now ≡ false) (λ s. (sound entry.now ≡ true) × (s ≡ entry.now)) }
    {
        let sound = (0..=DAY_END).contains(&entry.stamp) && is_kind_lawful(entry.kind);
        if !sound {
            return None;
        }
        Some(SoundEntry { entry: *entry })
    }
}

impl Figures {
    /// Nothing is last, and the sums are 0.
    pub fn empty() -> Figures
        ensures { result ≡ empty }
    {
        Figures::default()
    }

    // A trade enters the last trade and the sums.
    fn add_trade(&mut self, stamp: i32, deal: Deal)
        requires { roomy self.old ≡ true }
        ensures { self.new ≡ traded stamp deal.price deal.lots self.old }
    {
        self.trade = latest(self.trade, stamp, short(deal.price));
        self.lots += deal.lots;
        self.money += deal.worth();
    }

    // An entry enters the figures by its kind.
    fn enter(&mut self, e: &Entry)
        requires stamp { stamp_small e.now.stamp ≡ true }
        requires kind { kind_lawful e.now.kind ≡ true }
        requires room { roomy self.old ≡ true }
        ensures { self.new ≡ with_entry e.now.kind e.now.stamp self.old }
    {
        let stamp = short(e.stamp);
        match e.kind {
            Kind::Trade { price, lots } => self.add_trade(stamp, Deal { price, lots }),
            Kind::Auction { price, lots } => {
                self.auction = latest(self.auction, stamp, short(price));
                self.add_trade(stamp, Deal { price, lots });
            }
            Kind::Leg { .. } => {}
            Kind::Spread { difference } => {
                self.spread = latest(self.spread, stamp, short(difference));
            }
            Kind::Quote { bid, ask } => {
                let sides = Sides {
                    bid: short_side(bid),
                    ask: short_side(ask),
                };
                self.quote = latest(self.quote, stamp, sides);
            }
        }
    }

    // Whether the sums have room for one entry more.
    fn has_room(&self) -> bool
        ensures { result ≡ roomy self.now }
    {
        self.lots.unsigned_abs() <= MOST_LOTS && self.money.unsigned_abs() <= MOST_MONEY
    }

    /// A sound entry of the series enters the figures of a window with these edges, a first and a last second, if the window
    /// holds its stamp. An entry for which the sums have no room changes nothing.
    pub fn enter_sound(&mut self, e: &SoundEntry, edges: (i64, i64))
        ensures figures { self.new ≡ entered_sound edges self.old e.now }
        ensures sound { sound e.now ≡ true }
    {
        let (first, last) = edges;
        if (first..=last).contains(&e.entry.stamp) && self.has_room() {
            self.enter(&e.entry);
        }
    }

    /// An entry enters the figures of a series and of a window with these edges, a first and a last second, if it is for them.
    /// An entry beyond the limits of any day, or one for which the sums have no room, changes nothing.
    pub fn enter_in(&mut self, e: &Entry, series: u8, edges: (i64, i64))
        ensures { self.new ≡ entered_if series edges self.old e.now }
    {
        if e.series == i64::from(series) {
            if let Some(sound) = SoundEntry::new(e) {
                self.enter_sound(&sound, edges);
            }
        }
    }
}
