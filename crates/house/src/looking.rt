// What each step finds.
#![tactic(auto, using(crate::proofs::Looked::previous_spread_within, crate::proofs::Looked::last_spread_within))]

ghost use Rattle.std.specs.Prelude.{◌≡◌, ◌≤◌, true, unsigned_abs, IfSome};
ghost use Rattle.book.specs.Bounds.{bounded};
ghost use Rattle.book.specs.Entries.{spread_lawful};
ghost use Rattle.house.specs.Answers.{price_of, time_of};
ghost use Rattle.house.specs.Found.{above_theory, average, price_found, last_stamp, last_value, less, nearest_theory, quoted, time_found, timed};
ghost use Rattle.house.specs.Reach.{InReachBefore};
ghost use Rattle.ladders.specs.Values.{nearest_price};

use crate::answers::TimedPrice;
use crate::settling::{Question, price_of, time_of};
use book::books::Book;
use book::figures::{Figures, Last, Sides};
use ladders::rounding::nearest;
use ladders::sets::LadderSet;
use rows::steps::Step;

// The value of a last figure, if there is one.
fn last_value<V: Copy>(last: Option<Last<V>>) -> Option<V>
    ensures { result ≡ last_value last }
{
    last.map(|last| last.value)
}

// The stamp of a last figure, if there is one.
fn last_stamp<V: Copy>(last: Option<Last<V>>) -> Option<i32>
    ensures { result ≡ last_stamp last }
{
    last.map(|last| last.stamp)
}

// A price, if there is one, with its time.
fn timed(price: Option<i64>, time: Option<i32>) -> Option<TimedPrice>
    ensures { result ≡ timed price time }
{
    price.map(|price| TimedPrice { price, time })
}

// A last figure as a price at its stamp.
fn last_price(last: Option<Last<i32>>) -> Option<TimedPrice>
    ensures { result ≡ timed (last_value last) (last_stamp last) }
{
    timed(last_value(last).map(i64::from), last_stamp(last))
}

// The reference's price less a spread: near month less far month, so that the far month is the near less the spread. No method,
// since a proof has of a parameter that it fits 8 bits, and of a field has not.
fn less(number: u8, reference: Option<i64>, spread: Option<i64>) -> Option<i64>
    requires reference { InReachBefore number reference }
    requires spread { IfSome spread (λ d. spread_lawful d ≡ true) }
    ensures { result ≡ less reference spread }
{
    Some(reference? - spread?)
}

impl<L: LadderSet, B: Book> Question<'_, L, B> {
    // The lawful price closest to a fraction, on the ladder of the series.
    fn nearest(&self, fraction: (i64, u32)) -> Option<i64>
        ensures { result ≡ nearest_price (L.lawful self.now.set.now self.now.series.terms.ladder) fraction.0 fraction.1 }
    {
        nearest(self.set, self.series.terms.ladder, fraction)
    }

    // Nearest of the middle of the last quote, if that has both sides.
    fn quoted(&self, quote: Option<Sides>) -> Option<i64>
        ensures { result ≡ quoted (L.lawful self.now.set.now self.now.series.terms.ladder) quote }
    {
        let Sides { bid, ask } = quote?;
        self.nearest((i64::from(bid?) + i64::from(ask?), 2))
    }

    // Nearest of money over lots.
    fn average(&self, money: i64, lots: i64) -> Option<i64>
        requires { unsigned_abs lots ≤ 3000000000 }
        ensures { result ≡ average (L.lawful self.now.set.now self.now.series.terms.ladder) money lots }
    {
        self.nearest((money, lots.unsigned_abs() as u32))
    }

    fn nearest_theory(&self) -> Option<i64>
        ensures { result ≡ nearest_theory (L.lawful self.now.set.now self.now.series.terms.ladder) self.now.series.theory }
    {
        self.nearest((self.series.theory?, 1))
    }

    fn above_theory(&self) -> Option<i64>
        ensures { result ≡ above_theory (L.lawful self.now.set.now self.now.series.terms.ladder) self.now.series.theory }
    {
        self.set
            .above(self.series.terms.ladder, self.series.theory?)
    }

    // What a step finds, with the figures of the step's window: a price, and the time of its evidence.
    pub(crate) fn find(&self, figures: &Figures, step: Step) -> Option<TimedPrice>
        requires { bounded 30000 figures.now ≡ true }
        ensures { let lawful = L.lawful self.now.set.now self.now.series.terms.ladder in
            let reference = self.now.reference in
            result ≡ timed (price_found lawful (price_of reference) self.now.series figures.now step) (time_found (time_of reference) figures.now step) }
    {
        let series = &self.series;
        let reference = price_of(self.reference);
        // A match, and no table of functions: the steps are closed, and look at different things.
        match step {
            Step::Auction => last_price(figures.auction),
            Step::Trade => last_price(figures.trade),
            Step::Quote => timed(
                self.quoted(last_value(figures.quote)),
                last_stamp(figures.quote),
            ),
            Step::Average => timed(
                self.average(figures.money, figures.lots),
                last_stamp(figures.trade),
            ),
            Step::Theory => timed(self.nearest_theory(), None),
            Step::TheoryUp => timed(self.above_theory(), None),
            Step::Spread => timed(
                less(
                    self.number,
                    reference,
                    last_value(figures.spread).map(i64::from),
                ),
                last_stamp(figures.spread),
            ),
            Step::PreviousSpread => timed(
                less(self.number, reference, series.terms.previous_spread),
                None,
            ),
            Step::Copy => timed(reference, time_of(self.reference)),
            Step::Previous => timed(series.terms.previous_settlement, None),
            Step::Ruling => timed(series.ruling.map(|ruling| ruling.value), None),
        }
    }
}
