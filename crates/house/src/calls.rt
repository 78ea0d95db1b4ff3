// The calls of the house, up to the question for a price.
#![tactic(auto, using(crate::proofs::Slots::supplied))]

ghost use Rattle.std.specs.Prelude.{◌≡◌, IfErr, true, nat_lt};
ghost use Rattle.house.specs.Calls.{bell_after, bell_answer, entry_after, entry_answer, entry_check, entry_passed, kind_on_ladder, list_after, list_answer, listed_terms, may_have, may_rule, moved, new_state, ruling_after, ruling_answer, ruling_of, side_on_ladder, theory_after, theory_answer};
ghost use Rattle.house.specs.Series.{lawful_ruling};
ghost use Rattle.house.specs.Houses.{set_of, state};

use crate::faults::HouseFault;
use crate::houses::House;
use crate::listed::Listed;
use crate::phases::{Bell, Phase};
use crate::series::{Ruling, Series};
use crate::terms::{Listing, Terms, follows};
use book::books::Book;
use book::days::Day;
use book::entries::{Entry, Kind, SERIES, is_allowed, is_price, is_side};
use book::faults::BookFault;
use ladders::rounding::is_lawful_price;
use ladders::sets::LadderSet;
use rows::families::Family;

fn has_room(count: u8) -> bool
    ensures { result ≡ nat_lt count 32 }
{
    count < SERIES
}

// A spread is for a series that follows another.
fn may_have(family: Family, kind: Kind) -> bool
    ensures { result ≡ may_have family kind }
{
    match kind {
        Kind::Spread { .. } => follows(family),
        _ => true,
    }
}

// A ruling that is cleared has no first mark. Value and mark stand apart, here and below, since a cleared ruling with a mark comes
// in too, and is refused.
fn may_rule(value: Option<i64>, first: bool) -> bool
    ensures { result ≡ may_rule value first }
{
    value.map_or(!first, is_price)
}

fn ruling_of(value: Option<i64>, first: bool) -> Option<Ruling>
    ensures value { result ≡ ruling_of value first }
    ensures lawful { may_rule value first ≡ true → lawful_ruling result ≡ true }
{
    value.map(|value| Ruling { value, first })
}

// Each call that changes the house says in a clause `set` that its ladders stay: of a model of the house every clause would name
// both parts as well.
impl<L: LadderSet> House<L> {
    /// A new house over a ladder set: listing, with no series.
    pub fn new(set: L) -> House<L>
        ensures state { state result ≡ new_state }
        ensures set { set_of result ≡ set }
    {
        House {
            set,
            phase: Phase::Listing,
            listed: Listed::new(),
        }
    }

    // The terms under which a series may be listed now.
    fn admitted(&self, listing: &Listing) -> Result<Terms, HouseFault>
        ensures { result ≡ listed_terms (L.size (set_of self.now)) listing.now (state self.now) }
    {
        let number = self.listed.count();
        if self.phase != Phase::Listing {
            return Err(HouseFault::WrongPhase);
        }
        if !has_room(number) {
            return Err(HouseFault::SeriesFull);
        }
        listing.checked(number, self.set.count())
    }

    /// Lists a series, and tells its number. Refused after the open bell with `WrongPhase`, with 32 series listed with
    /// `SeriesFull`, and for unlawful terms with `TermsNotLawful`, in this order.
    pub fn list(&mut self, listing: Listing) -> Result<u8, HouseFault>
        ensures answer { result ≡ list_answer (L.size (set_of self.old)) listing (state self.old) }
        ensures after { state self.new ≡ list_after (L.size (set_of self.old)) listing (state self.old) }
        ensures refused { IfErr result (λ _. state self.new ≡ state self.old) }
        ensures set { set_of self.new ≡ set_of self.old }
    {
        let number = self.listed.count();
        let terms = self.admitted(&listing)?;
        self.listed.push(terms);
        Ok(number)
    }

    /// Rings a bell. Any bell but the one that ends the phase is refused with `WrongPhase`.
    pub fn ring(&mut self, bell: Bell) -> Result<(), HouseFault>
        ensures answer { result ≡ bell_answer bell (state self.old) }
        ensures after { state self.new ≡ bell_after bell (state self.old) }
        ensures refused { IfErr result (λ _. state self.new ≡ state self.old) }
        ensures set { set_of self.new ≡ set_of self.old }
    {
        match (self.phase, bell) {
            (Phase::Listing, Bell::Open) => self.phase = Phase::Trading,
            (Phase::Trading, Bell::Close) => self.phase = Phase::Closed,
            _ => return Err(HouseFault::WrongPhase),
        }
        Ok(())
    }

    // A side of a quote is on its ladder, or is missing.
    fn is_side_on_ladder(&self, ladder: u8, side: Option<i64>) -> bool
        ensures { result ≡ side_on_ladder (L.lawful (set_of self.now) ladder) side }
    {
        side.is_none_or(|price| is_lawful_price(&self.set, ladder, price))
    }

    // Whether the prices of an entry are on the ladder.
    fn is_on_ladder(&self, ladder: u8, kind: Kind) -> bool
        ensures { result ≡ kind_on_ladder (L.lawful (set_of self.now) ladder) kind }
    {
        match kind {
            // Three arms of one body: an or-pattern gets no proof where it binds an `i64`, which the prover then takes for
            // unsigned.
            Kind::Trade { price, .. } => is_lawful_price(&self.set, ladder, price),
            Kind::Auction { price, .. } => is_lawful_price(&self.set, ladder, price),
            Kind::Leg { price, .. } => is_lawful_price(&self.set, ladder, price),
            Kind::Spread { .. } => true,
            Kind::Quote { bid, ask } => {
                self.is_side_on_ladder(ladder, bid) && self.is_side_on_ladder(ladder, ask)
            }
        }
    }

    // What the day and the terms of its series demand of an entry.
    fn check_entry(&self, day: &Day, entry: &Entry, terms: &Terms) -> Result<(), HouseFault>
        ensures { result ≡ entry_check (L.lawful (set_of self.now)) day.now entry.now terms.now }
    {
        if !is_allowed(day, entry) {
            return Err(BookFault::BeyondLimits.into());
        }
        if !may_have(terms.family, entry.kind) {
            return Err(HouseFault::SpreadNotFollowing);
        }
        if !self.is_on_ladder(terms.ladder, entry.kind) {
            return Err(HouseFault::OffLadder);
        }
        Ok(())
    }

    // Whether the house lets the entry go to a book of the day.
    fn pass(&self, day: &Day, entry: &Entry) -> Result<(), HouseFault>
        ensures { result ≡ entry_passed (L.lawful (set_of self.now)) day.now entry.now (state self.now) }
    {
        if self.phase != Phase::Trading {
            return Err(HouseFault::WrongPhase);
        }
        let series = self.listed.series(entry.series)?;
        self.check_entry(day, entry, &series.terms)
    }

    /// Enters an entry into the book. Refused while not trading with `WrongPhase`, for a series that is not listed with
    /// `NoSuchSeries`, beyond the limits with the book's `BeyondLimits`, as a spread outside family 2 with `SpreadNotFollowing`, with
    /// a price off its ladder with `OffLadder`, and by a full book with its `Full`, in this order.
    pub fn enter<B: Book>(&self, book: &mut B, entry: Entry) -> Result<(), HouseFault>
        ensures answer { result ≡ entry_answer (L.lawful (set_of self.now)) (B.meaning book.old) entry (state self.now) }
        ensures after { B.meaning book.new ≡ entry_after (L.lawful (set_of self.now)) entry (state self.now) (B.meaning book.old) }
        ensures memory { B.memory book.new
            ≡ moved (entry_answer (L.lawful (set_of self.now)) (B.meaning book.old) entry (state self.now))
            (λ _. B.with_stored (B.memory book.old) (B.meaning book.old).count entry) (B.memory book.old) }
        ensures refused { IfErr result (λ _. B.meaning book.new ≡ B.meaning book.old) }
    {
        self.pass(&book.day(), &entry)?;
        book.take(entry)?;
        Ok(())
    }

    /// Sets the theory value of a series, in points, or clears it. Refused for a series that is not listed with `NoSuchSeries`, and
    /// beyond the price limit with `SuppliedBeyondLimits`.
    pub fn set_theory(&mut self, series: i64, value: Option<i64>) -> Result<(), HouseFault>
        ensures answer { result ≡ theory_answer series value (state self.old) }
        ensures after { state self.new ≡ theory_after series value (state self.old) }
        ensures refused { IfErr result (λ _. state self.new ≡ state self.old) }
        ensures set { set_of self.new ≡ set_of self.old }
    {
        let number = self.listed.find(series)?;
        if !is_side(value) {
            return Err(HouseFault::SuppliedBeyondLimits);
        }
        let series = self.listed.get(number);
        let theory = value;
        self.listed.put(number, Series { theory, ..series });
        Ok(())
    }

    /// Sets the ruling of a series, in points, with or without the first mark, or clears it. Refused for a series that is not
    /// listed with `NoSuchSeries`; beyond the price limit, or cleared with the first mark, with `SuppliedBeyondLimits`.
    pub fn set_ruling(
        &mut self,
        series: i64,
        value: Option<i64>,
        first: bool,
    ) -> Result<(), HouseFault>
        ensures answer { result ≡ ruling_answer series value first (state self.old) }
        ensures after { state self.new ≡ ruling_after series value first (state self.old) }
        ensures refused { IfErr result (λ _. state self.new ≡ state self.old) }
        ensures set { set_of self.new ≡ set_of self.old }
    {
        let number = self.listed.find(series)?;
        if !may_rule(value, first) {
            return Err(HouseFault::SuppliedBeyondLimits);
        }
        let series = self.listed.get(number);
        let ruling = ruling_of(value, first);
        self.listed.put(number, Series { ruling, ..series });
        Ok(())
    }
}
