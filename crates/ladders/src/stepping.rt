// A stepped ladder: one to four bands, each with a tick for its prices.
ghost use Rattle.std.specs.Prelude.{◌≡◌, ◌≤◌, false, map, length, take, pos, is_some, is_ok, Some, None, IfOk, Decides, int_lt, nat_le};
ghost use Rattle.ladders.specs.Bands.{tick_at, in_bands, band, described, description, rises, band_fault, start_fault, first_fault, later_fault, ladder_fault};
ghost use Rattle.ladders.specs.Faults.{TakenUnless};
ghost use Rattle.ladders.specs.Lawful.{LawfulBands};
ghost use Rattle.ladders.specs.InBand.{ladder_is_near};

use crate::bands::{Band, LaterBand};
use crate::faults::LadderFault;
use crate::limits::is_within;
use crate::rungs::Ladder;
use crate::ticks::Tick;

/// A ladder of 1 to 4 bands: a price is lawful if it is a multiple of the tick of the band that it lies in.
// An array with a count, since nothing here allocates, and no ArrayVec of the kit, which would be a new dependency and is not Copy.
#[derive(Clone, Copy)]
pub struct SteppedLadder {
    first: Tick,
    later: [LaterBand; 3],
    count: usize,
    ghost few: { count ≤ 3 },
    ghost lawful: { is_some (ladder_fault (description first (take count later))) ≡ false },
}

// A band that is checked, as the next one looks at it: its start, which the first band lacks, and its tick.
#[derive(Clone, Copy)]
struct Before {
    start: Option<i64>,
    tick: Tick,
}

impl Before {
    // Whether a start lies over this band's, if it has one.
    fn starts_under(self, start: i64) -> bool
        ensures { result ≡ rises self.start start }
    {
        self.start.is_none_or(|s| s < start)
    }

    // The start of the next band, whose tick is `own`.
    fn checked_start(self, own: Tick, start: Option<i64>) -> Result<i64, LadderFault>
        ensures { TakenUnless (start_fault (band self.start self.tick) (pos own.points) start) (λ s. start ≡ Some s) result }
    {
        let s = start.ok_or(LadderFault::StartMisplaced)?;
        if !is_within(s) {
            return Err(LadderFault::StartOutOfRange);
        }
        if !self.starts_under(s) {
            return Err(LadderFault::StartsNotRising);
        }
        if !(self.tick.divides(s) && own.divides(s)) {
            return Err(LadderFault::StartOffTick);
        }
        Ok(s)
    }

    // The next band.
    fn checked_band(self, next: Band) -> Result<LaterBand, LadderFault>
        ensures { TakenUnless (band_fault (band self.start self.tick) next) (λ s. described s ≡ next) result }
    {
        let tick = Tick::new(next.tick)?;
        let start = self.checked_start(tick, next.start)?;
        Ok(LaterBand { start, tick })
    }
}

impl From<LaterBand> for Before {
    ghost from_gives = { λ s b. (b.start ≡ Some s.start) × (b.tick ≡ s.tick) };

    fn from(band: LaterBand) -> Before {
        Before {
            start: Some(band.start),
            tick: band.tick,
        }
    }
}

// Whether a ladder may have this many bands after the first.
fn are_few(later: usize) -> bool
    ensures { result ≡ nat_le later 3 }
{
    later <= 3
}

// The tick of the first band, which has no start.
fn checked_first(head: Band) -> Result<Tick, LadderFault>
    ensures { TakenUnless (first_fault head) (λ t. band None t ≡ head) result }
{
    if head.start.is_some() {
        return Err(LadderFault::StartMisplaced);
    }
    Tick::new(head.tick)
}

// The bands after the first, checked one after the other.
fn checked_later(first: Tick, rest: &[Band]) -> Result<[LaterBand; 3], LadderFault>
    requires { length rest.now ≤ 3 }
    ensures { TakenUnless (later_fault (band None first) rest.now) (λ later. map described (take (length rest.now) later) ≡ rest.now) result }
{
    let mut later = [LaterBand {
        start: 0,
        tick: first,
    }; 3];
    let mut before = Before {
        start: None,
        tick: first,
    };
    // By place, since a zip with `iter_mut` leaves the proof without the array's values.
    for (i, next) in rest.iter().enumerate() {
        let band = before.checked_band(*next)?;
        later[i] = band;
        before = Before::from(band);
    }
    Ok(later)
}

// Whether v lies under a start: a band ends just under the next.
fn is_under(v: i64, start: i64) -> bool
    ensures { result ≡ int_lt v start }
{
    v < start
}

impl SteppedLadder {
    ghost use Rattle.ladders.specs.LawfulPrices.{PricesByBand};
    ghost use Rattle.ladders.specs.Made.{bands_of};

    // The ladder of these bands, unless they have a fault. Apart from `new`, so that what is made wrongly fails here, and not in the
    // proof of the rules' words.
    fn checked(bands: &[Band]) -> Result<SteppedLadder, LadderFault>
        ensures { TakenUnless (ladder_fault bands.now) (λ l. bands_of l ≡ bands.now) result }
    {
        let [head, rest @ ..] = bands else {
            return Err(LadderFault::NoBand);
        };
        if !are_few(rest.len()) {
            return Err(LadderFault::TooManyBands);
        }
        let first = checked_first(*head)?;
        let later = checked_later(first, rest)?;
        Ok(SteppedLadder {
            first,
            later,
            count: rest.len(),
        })
    }

    /// The ladder of these bands: taken exactly if they are lawful, and otherwise refused with the first fault.
    pub fn new(bands: &[Band]) -> Result<SteppedLadder, LadderFault>
        ensures lawful { Decides (is_ok result) (LawfulBands bands.now) }
        ensures made { TakenUnless (ladder_fault bands.now) (λ l. bands_of l ≡ bands.now) result }
        ensures prices { IfOk result (λ l. PricesByBand bands.now (⟦<SteppedLadder as Ladder>⟧.holds l)) }
    {
        SteppedLadder::checked(bands)
    }

    // The tick of the band that v lies in: that of the last band which does not begin over v.
    fn tick_at(&self, v: i64) -> Tick
        ensures { pos result.points ≡ tick_at (pos self.now.first.points) (map described (take self.now.count self.now.later)) v }
    {
        self.later[..self.count]
            .iter()
            .take_while(|band| !is_under(v, band.start))
            .fold(self.first, |_, band| band.tick)
    }
}

impl Ladder for SteppedLadder {
    ghost holds = { λ l. in_bands (description l.first (take l.count l.later)) };

    ghost dense = { λ l z. ladder_is_near l.first (take l.count l.later) l.lawful z };

    fn above(&self, v: i64) -> Option<i64> {
        self.tick_at(v).above(v)
    }

    fn below(&self, v: i64) -> Option<i64> {
        self.tick_at(v).below(v)
    }
}
