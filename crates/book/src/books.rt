// A book, known by its meaning alone.
ghost use Rattle.std.specs.Prelude.{◌≡◌, ℕ};
ghost use Rattle.book.specs.Ledgers.{Ledger, Lawful, memory_after, take_after, take_answer, fresh, admission};
ghost use Rattle.book.specs.declared.entries.Entry.{Entry};

use crate::days::Day;
use crate::entries::{Entry, is_allowed};
use crate::faults::BookFault;
use crate::figures::Figures;
use crate::lawful::LawfulDay;

/// No book holds more entries.
pub const MOST: usize = 30_000;

/// Whether a book of the day may take the entry, after `count` entries, of `capacity` in all. `BeyondLimits`: a number beyond
/// its limits, a crossed quote, or no such series, whether or not there is a place; `Full`: else, if there is none.
pub fn admit(day: &Day, count: usize, capacity: usize, entry: &Entry) -> Result<(), BookFault>
    ensures { result ≡ admission day.now count capacity entry.now }
{
    if !is_allowed(day, entry) {
        Err(BookFault::BeyondLimits)
    } else if count == capacity {
        Err(BookFault::Full)
    } else {
        Ok(())
    }
}

/// A book of one trading day: it takes entries, and tells the figures of each series and window. Every make has this meaning.
pub trait Book {
    // The day record, the capacity, how many entries were taken, and the figures of every series and window.
    ghost meaning: { Self → Ledger };

    // The memory that was lent to the book, and the same with an entry stored as the one after so many. It is `Unit` for a make
    // that is lent none, or that tells nothing of it.
    ghost Memory: { Type 0 };

    ghost memory: { Self → Memory };

    ghost with_stored: { Memory → ℕ → Entry → Memory };

    /// Takes an entry, or refuses it as `admit` does and changes nothing.
    fn take(&mut self, entry: Entry) -> Result<(), BookFault>
        ensures answer { result ≡ take_answer (meaning self.old) entry }
        ensures after { meaning self.new ≡ take_after (meaning self.old) entry }
        ensures memory { memory self.new ≡ memory_after with_stored (meaning self.old) entry (memory self.old) };

    /// The figures of a series and a window, each last one with its stamp; empty outside series 0 to 31 and windows 1 to 13. Raw
    /// numbers, since a narrower type would ask more of callers.
    fn figures(&self, series: u8, window: u8) -> Figures
        ensures { result ≡ (meaning self.now).figures series window };

    /// The day record.
    fn day(&self) -> Day
        ensures { result ≡ (meaning self.now).day };

    /// How many entries the book takes in all: at most 30,000.
    fn capacity(&self) -> u16
        ensures { result ≡ (meaning self.now).capacity };

    /// How many entries the book has taken.
    fn count(&self) -> u16
        ensures { result ≡ (meaning self.now).count };

    // Every book is of a lawful day, takes no more entries than it has places, and keeps its figures within the bounds of the
    // number of entries; one that has taken none has empty figures.
    ghost lawful: { (book : Self) → Lawful (meaning book) };
}

/// A book that can be begun anew: whoever lends it need not know the day before the day record comes in.
pub trait Reusable: Book {
    /// Begins the day with an empty book, of as many places as before.
    fn begin(&mut self, day: LawfulDay)
        ensures after { Self.meaning self.new ≡ fresh day (Self.meaning self.old).capacity }
        ensures memory { Self.memory self.new ≡ Self.memory self.old };
}
