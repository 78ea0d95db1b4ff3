// The series that are listed, in the order listed.
ghost use Rattle.std.specs.Prelude.{◌≡◌, ℕ, ◌+◌, ◌<◌, ◌≤◌, true, IfOk, Ok, nat_lt, slice_index_or, unsigned_abs};
ghost use Rattle.house.specs.Calls.{demand};
ghost use Rattle.house.specs.Rolls.{changed, is_listed, none_listed, with_listed};
ghost use Rattle.house.specs.declared.faults.HouseFault.TheVariants.{NoSuchSeries};
ghost use Rattle.house.specs.Series.{blank, lawful_series, new_series};

use crate::faults::HouseFault;
use crate::series::Series;
use crate::terms::{Terms, number_under};
use rows::families::Family;
use rows::places::Marks;

// What stands at a number that no listed series has.
fn blank() -> Series
    ensures { result ≡ blank }
{
    let marks = Marks {
        last_day: false,
        quarter_end: false,
    };
    let terms = Terms {
        family: Family::LongBond,
        ladder: 0,
        reference: None,
        previous_settlement: None,
        previous_spread: None,
        marks,
    };
    Series::new(terms)
}

/// The series that are listed. Every one has lawful terms, with a reference to an earlier series if any, and supplied values within
/// the price limit.
// The slots are an array with a count, since nothing here allocates; the kit's vector within an array would be a new dependency.
// Contracts see a roll (`roll_of`) and not a model: the kit finds no code for a model's value that has a function in it.
#[derive(Drop)]
pub struct Listed {
    slots: [Series; 32],
    count: u8,
    ghost few: { count ≤ 32 },
    ghost lawful: { (n : ℕ) → lawful_series n (slice_index_or slots n blank) ≡ true },
    ghost unused: { (n : ℕ) → count ≤ n → slice_index_or slots n blank ≡ blank },
}

impl Listed {
    ghost use Rattle.house.specs.ListedRoll.{roll_of};

    pub(crate) fn new() -> Listed
        ensures { roll_of result ≡ none_listed }
    {
        let unused = blank();
        Listed {
            slots: [unused; 32],
            count: 0,
        }
    }

    // How many are listed, at most 32.
    pub(crate) fn count(&self) -> u8
        ensures value { result ≡ (roll_of self.now).count }
        ensures few { result ≤ 32 }
    {
        self.count
    }

    // The series of a number; a blank one if none is listed by it, and no Option, so that a roll has one for every number.
    pub(crate) fn get(&self, n: u8) -> Series
        ensures value { result ≡ (roll_of self.now).series n }
        ensures lawful { lawful_series n result ≡ true }
    {
        self.slots
            .get(usize::from(n))
            .copied()
            .unwrap_or_else(blank)
    }

    // The number of a listed series, in 8 bits.
    pub(crate) fn find(&self, series: i64) -> Result<u8, HouseFault>
        ensures value { result ≡ demand (is_listed (roll_of self.now).count series) NoSuchSeries (Ok (unsigned_abs series)) }
        ensures listed { IfOk result (λ n. n < (roll_of self.now).count) }
    {
        number_under(series, self.count).ok_or(HouseFault::NoSuchSeries)
    }

    // A listed series.
    pub(crate) fn series(&self, series: i64) -> Result<Series, HouseFault>
        ensures { result ≡ demand (is_listed (roll_of self.now).count series) NoSuchSeries (Ok ((roll_of self.now).series (unsigned_abs series))) }
    {
        Ok(self.get(self.find(series)?))
    }

    // Lists a series by the next number.
    pub(crate) fn push(&mut self, terms: Terms)
        requires room { nat_lt (roll_of self.old).count 32 ≡ true }
        requires lawful { lawful_series (roll_of self.old).count (new_series terms) ≡ true }
        ensures { roll_of self.new ≡ with_listed terms (roll_of self.old) }
    {
        self.slots[usize::from(self.count)] = Series::new(terms);
        self.count += 1;
    }

    // Changes a listed series.
    pub(crate) fn put(&mut self, n: u8, series: Series)
        requires listed { n < (roll_of self.old).count }
        requires lawful { lawful_series n series ≡ true }
        ensures { roll_of self.new ≡ changed n series (roll_of self.old) }
    {
        self.slots[usize::from(n)] = series;
    }
}
