// A set of 1 to 16 ladders, numbered from 0.
ghost use Rattle.std.specs.Prelude.{◌≡◌, ℕ, ◌≤◌, Bool, true, length, take, ℤ, if◌then◌else◌, Some, None, is_ok, IfOk, Decides, slice_get, option_copied};
ghost use Rattle.ladders.specs.Prices.{within};
ghost use Rattle.ladders.specs.Rounding.{AnswersWhere, Above, Below, Near};
ghost use Rattle.ladders.specs.Faults.{TakenUnless, size_fault};
ghost use Rattle.ladders.specs.Lawful.{LawfulSet};
ghost use Rattle.ladders.specs.LawfulPrices.{PricesByLadder};
ghost use Rattle.ladders.specs.Sets.{lawful_at, set_fault};
ghost use Rattle.ladders.specs.InSet.{lacks, set_is_near};

use crate::describing::Describes;
use crate::faults::LadderFault;
use crate::limits::is_within;
use crate::rungs::Ladder;
use crate::stepping::SteppedLadder;
use crate::ticks::Tick;

/// A set of ladders, known by its lawful prices.
pub trait LadderSet {
    // The set's meaning: how many ladders it has, and for each ladder number the lawful prices.
    ghost size: { Self → ℕ };

    ghost lawful: { Self → ℕ → ℤ → Bool };

    /// How many ladders it has.
    fn count(&self) -> u8
        ensures { result ≡ size self.now };

    /// The least lawful price not under v, in points, for v within the price limit; nothing for any other. It may pass the limit.
    fn above(&self, ladder: u8, v: i64) -> Option<i64>
        ensures { AnswersWhere (within v) (Above (lawful self.now ladder) v) result };

    /// The greatest lawful price not over v, in points, for v within the price limit; nothing for any other. It may pass the limit.
    fn below(&self, ladder: u8, v: i64) -> Option<i64>
        ensures { AnswersWhere (within v) (Below (lawful self.now ladder) v) result };

    ghost counted: { (s : Self) → (1 ≤ size s) × (size s ≤ 16) };

    // On a ladder number that the set lacks, every whole number is lawful.
    ghost lacking: { (s : Self) (n : ℕ) (v : ℤ) → size s ≤ n → lawful s n v ≡ true };

    // Lawful prices have no end on either side, and neighbours are at most 1,000,000 points apart.
    ghost dense: { (s : Self) (n : ℕ) (z : ℤ) → Near (lawful s n) z };
}

/// A set of ladders of one make.
// The places from `count` on are not used: an array, since nothing here allocates, and no ArrayVec of the kit, which would be a new
// dependency, and whose `new` asks that L has a default.
#[derive(Drop)]
pub struct SetOf<L> {
    ladders: [L; 16],
    count: u8,
    ghost counted: { (1 ≤ count) × (count ≤ 16) },
}

/// Ladders of one tick each.
pub type EvenSet = SetOf<Tick>;

/// Ladders of bands.
pub type SteppedSet = SetOf<SteppedLadder>;

// A number of ladders, 1 to 16.
fn checked_count(count: usize) -> Result<u8, LadderFault>
    ensures { TakenUnless (size_fault count) (λ n. (n ≡ count) × ((1 ≤ count) × (count ≤ 16))) result }
{
    match count {
        0 => Err(LadderFault::NoLadder),
        1..=16 => Ok(count as u8),
        _ => Err(LadderFault::TooManyLadders),
    }
}

// A whole number is its own rounding on a ladder that the set lacks.
fn whole(v: i64) -> Option<i64>
    ensures { result ≡ (if within v then Some v else None) }
{
    is_within(v).then_some(v)
}

impl<L: Ladder> SetOf<L> {
    /// The set of the ladders that are described, numbered in their order. The error is the first fault: of their number, or of the
    /// first ladder that is not lawful.
    pub fn new<D: Describes<L>>(described: &[D]) -> Result<SetOf<L>, LadderFault>
        ensures lawful { Decides (is_ok result) (LawfulSet D.Describes.keeps_rules described.now) }
        ensures made { TakenUnless (set_fault D.Describes.fault described.now)
            (λ s.
            let set = ⟦<SetOf<L> as LadderSet>⟧ in
            (set.size s ≡ length described.now)
            × ((n : ℕ) (v : ℤ) → set.lawful s n v ≡ lawful_at D.Describes.prices described.now n v))
            result }
        ensures prices { IfOk result (λ s. PricesByLadder D.Describes.lawful_prices described.now (⟦<SetOf<L> as LadderSet>⟧.lawful s)) }
    {
        let count = checked_count(described.len())?;
        let (first, later) = described.split_first().ok_or(LadderFault::NoLadder)?;
        // The first fills the array, and is not checked again.
        let mut ladders = [first.checked()?; 16];
        // By place, since a zip with `iter_mut` leaves the proof without the array's values.
        for (i, next) in later.iter().enumerate() {
            ladders[i + 1] = next.checked()?;
        }
        Ok(SetOf { ladders, count })
    }

    // The ladder of a number, if the set has it.
    fn ladder(&self, number: u8) -> Option<&L>
        ensures { option_copied result ≡ slice_get (take self.now.count self.now.ladders) number }
    {
        self.ladders[..usize::from(self.count)].get(usize::from(number))
    }
}

impl<L: Ladder> LadderSet for SetOf<L> {
    ghost size = { λ s. s.count };

    ghost lawful = { λ s. lawful_at L.holds (take s.count s.ladders) };

    ghost counted = { λ s. s.counted };

    ghost lacking = { λ s n v h. lacks L.holds s.ladders s.count n h v };

    ghost dense = { λ s n z. set_is_near L.holds L.dense (take s.count s.ladders) n z };

    fn count(&self) -> u8 {
        self.count
    }

    fn above(&self, ladder: u8, v: i64) -> Option<i64> {
        self.ladder(ladder).map_or_else(|| whole(v), |l| l.above(v))
    }

    fn below(&self, ladder: u8, v: i64) -> Option<i64> {
        self.ladder(ladder).map_or_else(|| whole(v), |l| l.below(v))
    }
}
