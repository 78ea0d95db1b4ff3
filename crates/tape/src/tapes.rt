// The tape.
ghost use Rattle.std.specs.Prelude.{◌≡◌, ◌≤◌, min, true, List, length, take, slice_set};
ghost use Rattle.std.specs.Borrow.{MutBor};
ghost use Rattle.book.specs.Days.{is_lawful_day};
ghost use Rattle.book.specs.Entries.{allowed};
ghost use Rattle.book.specs.Ledgers.{fresh};
ghost use Rattle.book.specs.Records.{every, recorded};
ghost use Rattle.book.specs.declared.entries.Entry.{Entry};
ghost use Rattle.tape.specs.LawfulTape.{stored_is_lawful};

use crate::scans::scan;
use book::books::{Book, MOST, Reusable, admit};
use book::days::Day;
use book::entries::{Entry, Kind};
use book::faults::BookFault;
use book::figures::Figures;
use book::lawful::LawfulDay;
use book::windows::edges;

/// What may fill the places that a tape is lent: it reads none of them before it has stored an entry there.
pub const BLANK: Entry = Entry {
    series: 0,
    stamp: 0,
    kind: Kind::Leg { price: 0, lots: 0 },
};

/// A book that keeps its entries, in the order taken, in places that the caller lends, and goes through them to answer.
// The entries taken stand in the first `count` places.
#[derive(Drop)]
pub struct Tape<'a> {
    slots: &'a mut [Entry],
    count: usize,
    day: Day,
    ghost lawful_day: { is_lawful_day day ≡ true },
    ghost held: { count ≤ length slots.now },
    ghost few: { count ≤ 30000 },
    ghost allowed: { every (allowed day) (take count slots.now) ≡ true },
}

impl<'a> Tape<'a> {
    /// An empty tape for the day: it has as many places as it is lent, and at most 30,000. What stands in them stays.
    pub fn new(day: LawfulDay, slots: &'a mut [Entry]) -> Tape<'a>
        ensures meaning { ⟦<Tape<'a> as Book>⟧.meaning result ≡ fresh day (min (length slots.old) 30000) }
        ensures memory { ⟦<Tape<'a> as Book>⟧.memory result ≡ slots.entry }
    {
        Tape {
            slots,
            count: 0,
            day: day.day(),
        }
    }

    // How many entries it takes in all.
    fn places(&self) -> usize
        ensures { result ≡ min (length self.now.slots.now) 30000 }
    {
        self.slots.len().min(MOST)
    }
}

impl Book for Tape<'_> {
    ghost meaning = { λ t. recorded t.day (min (length t.slots.now) 30000) (take t.count t.slots.now) };

    // The places lent. They stand with the name of the reference, so that who lent them knows what they hold in the end.
    ghost Memory = { MutBor (List Entry) };

    ghost memory = { λ t. t.slots };

    ghost with_stored = { λ slots n e. record slots { now = slice_set slots.now n e } };

    ghost lawful = { λ t. stored_is_lawful t.day t.slots.now t.count t.lawful_day t.held t.few t.allowed };

    fn take(&mut self, entry: Entry) -> Result<(), BookFault> {
        admit(&self.day(), self.count, self.places(), &entry)?;
        self.slots[self.count] = entry;
        self.count += 1;
        Ok(())
    }

    fn figures(&self, series: u8, window: u8) -> Figures {
        let edges = edges(&self.day, window);
        scan(&self.slots[..self.count], series, edges)
    }

    fn day(&self) -> Day {
        self.day
    }

    fn capacity(&self) -> u16 {
        self.places() as u16
    }

    fn count(&self) -> u16 {
        self.count as u16
    }
}

impl Reusable for Tape<'_> {
    fn begin(&mut self, day: LawfulDay) {
        self.day = day.day();
        self.count = 0;
    }
}
