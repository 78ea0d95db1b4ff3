// The answer for one series.
ghost use Rattle.std.specs.Prelude.{◌≡◌, ℕ, ◌+◌, ◌<◌, true, None, slice_index_or};
ghost use Rattle.std.proofs.Props.{props};
ghost use Rattle.rows.specs.Chosen.{chosen};
ghost use Rattle.rows.specs.Codes.{at};
ghost use Rattle.house.specs.Answers.{answered, by_row, first_found, origin, origin_of, price_of, refers, row_of, some_refers, time_of};
ghost use Rattle.house.specs.Found.{found};
ghost use Rattle.house.specs.Reach.{AnswerInReach, FoundInReach, InReachBefore, TimedInReach};
ghost use Rattle.house.specs.Series.{lawful_series};

use crate::answers::{Settlement, TimedPrice};
use crate::series::{Ruling, Series};
use book::books::Book;
use ladders::sets::LadderSet;
use rows::choosing::choose;
use rows::places::{Choice, Edition, Place};
use rows::steps::Step;
use rows::tables::{PLACES, place_at, places};
use std::alloc::AllocError;

// A settlement, or the number of the series from which the refusal comes: nothing else can be wrong, so that no enum is
// needed. That an answer is in reach is a clause of each function that gives one, since a Result has no ghost field.
pub(crate) type Answer = Result<Settlement, u8>;

// A series of which a price is asked, with all that its answer may rest on: the ladders, the book, its number, the edition, and
// the answer for its reference, if it has one.
pub(crate) struct Question<'a, L, B> {
    pub(crate) set: &'a L,
    pub(crate) book: &'a B,
    pub(crate) number: u8,
    pub(crate) series: Series,
    pub(crate) edition: Edition,
    pub(crate) reference: Option<Answer>,
    ghost lawful: { lawful_series number series ≡ true },
    ghost reach: { InReachBefore number (price_of reference) } by { Prim.hlevel props },
}

// So that a question may be let go. By hand, since a derive, of `Drop` too, would ask the same of ladders and books.
impl<L, B> Copy for Question<'_, L, B> {}

impl<L, B> Clone for Question<'_, L, B> {
    fn clone(&self) -> Result<Self, AllocError> {
        Ok(*self)
    }
}

// A settlement by the place at a position; places are counted from 1.
fn settlement_at(found: TimedPrice, step: Step, position: usize) -> Settlement
    requires { position < 6 }
    ensures { result ≡ record { price = found.price; step = step; place = position + 1; time = found.time } }
{
    Settlement {
        price: found.price,
        step,
        place: position as u8 + 1,
        time: found.time,
    }
}

// Whether a step uses the reference.
fn refers(step: Step) -> bool
    ensures { result ≡ refers step }
{
    matches!(step, Step::Spread | Step::PreviousSpread | Step::Copy)
}

// Whether a ruling comes before the row.
fn comes_first(ruling: Ruling) -> bool
    ensures { result ≡ ruling.first }
{
    ruling.first
}

// The reference's price, where there is a reference and it settles.
pub(crate) fn price_of(reference: Option<Answer>) -> Option<i64>
    ensures { result ≡ price_of reference }
{
    Some(reference?.ok()?.price)
}

// The time of the reference's answer, where there is a reference and it settles.
pub(crate) fn time_of(reference: Option<Answer>) -> Option<i32>
    ensures { result ≡ time_of reference }
{
    reference?.ok()?.time
}

// The reference's origin, where there is a reference and it is refused; else the series itself.
fn origin_of(number: u8, reference: Option<Answer>) -> u8
    ensures { result ≡ origin_of number reference }
{
    reference.and_then(Result::err).unwrap_or(number)
}

impl<L: LadderSet, B: Book> Question<'_, L, B> {
    ghost use Rattle.house.specs.QuestionStation.{station_in};

    // Which of the family's rows settles the series.
    fn choice(&self) -> Choice
        ensures { result ≡ chosen self.now.series.terms.family self.now.series.terms.marks self.now.edition }
    {
        let terms = self.series.terms;
        choose(terms.family, terms.marks, self.edition)
    }

    // The places of that row.
    fn places(&self) -> [Option<Place>; PLACES]
        ensures { (k : ℕ) → slice_index_or result k None ≡ at (row_of self.now.series self.now.edition) k }
    {
        places(self.series.terms.family, self.choice())
    }

    // Its place at a position from 0 on; nothing past its end.
    fn place_at(&self, position: usize) -> Option<Place>
        ensures { result ≡ at (row_of self.now.series self.now.edition) position }
    {
        place_at(self.series.terms.family, self.choice(), position)
    }

    // What a place of the row finds: a price, and the time of its evidence.
    fn look(&self, place: Place) -> Option<TimedPrice>
        ensures value { let reference = self.now.reference in
            result ≡ found (L.lawful self.now.set.now) (price_of reference) (time_of reference) (station_in B.meaning self.now) place }
        ensures reach { TimedInReach self.now.number result }
    {
        // A step that looks in no window reads none of the figures; no window is numbered 0.
        let figures = self.book.figures(self.number, place.window.unwrap_or(0));
        self.find(&figures, place.step)
    }

    // The first place of the row that finds a price.
    fn first_found(&self) -> Option<Settlement>
        ensures value { let reference = self.now.reference in
            let find = found (L.lawful self.now.set.now) (price_of reference) (time_of reference) (station_in B.meaning self.now) in
            result ≡ first_found find 1 (row_of self.now.series self.now.edition) }
        ensures reach { FoundInReach self.now.number result }
    {
        // A loop, since it ends at an empty place as well as at a price; the position is told with the price. The places after
        // that price are not looked up.
        for position in 0..PLACES {
            let place = self.place_at(position)?;
            if let Some(found) = self.look(place) {
                return Some(settlement_at(found, place.step, position));
            }
        }
        None
    }

    // Whether some step of the row uses the reference.
    fn some_refers(&self) -> bool
        ensures { result ≡ some_refers (row_of self.now.series self.now.edition) }
    {
        let places = self.places();
        places
            .iter()
            .any(|place| place.is_some_and(|place| refers(place.step)))
    }

    // Where a refusal of the series comes from: from its reference only if a step of its row uses it.
    fn origin(&self) -> u8
        ensures { result ≡ origin self.now.edition (station_in B.meaning self.now) self.now.reference }
    {
        if self.some_refers() {
            origin_of(self.number, self.reference)
        } else {
            self.number
        }
    }

    // By the row: the first place that finds a price, or the origin of the refusal.
    fn by_row(&self) -> Answer
        ensures value { result ≡ by_row (L.lawful self.now.set.now) self.now.edition (station_in B.meaning self.now) self.now.reference }
        ensures reach { AnswerInReach self.now.number result }
    {
        // A match: of an `ok_or_else` the proof has too little of what its closure gives.
        match self.first_found() {
            Some(settlement) => Ok(settlement),
            None => Err(self.origin()),
        }
    }

    // The answer: a ruling with the first mark comes before the row.
    pub(crate) fn answer(&self) -> Answer
        ensures value { result ≡ answered (L.lawful self.now.set.now) self.now.edition (station_in B.meaning self.now) self.now.reference }
        ensures reach { AnswerInReach self.now.number result }
    {
        match self.series.ruling {
            Some(ruling) if comes_first(ruling) => Ok(Settlement {
                price: ruling.value,
                step: Step::Ruling,
                place: 0,
                time: None,
            }),
            _ => self.by_row(),
        }
    }
}
