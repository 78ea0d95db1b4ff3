// The board.
ghost use Rattle.std.specs.Prelude.{◌≡◌, ℕ, ◌≤◌, min, true};
ghost use Rattle.book.specs.Bounds.{bounded};
ghost use Rattle.book.specs.Days.{is_lawful_day};
ghost use Rattle.book.specs.Figures.{empty};
ghost use Rattle.book.specs.Ledgers.{fresh};
ghost use Rattle.board.specs.Cells.{cell, tabled};
ghost use Rattle.board.specs.LawfulTable.{table_is_lawful};

use crate::tables::Table;
use book::books::{Book, MOST, Reusable, admit};
use book::days::Day;
use book::entries::Entry;
use book::faults::BookFault;
use book::figures::Figures;
use book::lawful::LawfulDay;

/// A book that keeps running figures of every series and window, and takes the same memory whatever comes.
#[derive(Drop)]
pub struct Board {
    table: Table,
    day: Day,
    capacity: u16,
    count: u16,
    ghost lawful_day: { is_lawful_day day ≡ true },
    ghost most: { capacity ≤ 30000 },
    ghost room: { count ≤ capacity },
    ghost bounds: { (s w : ℕ) → bounded count (cell table.cells s w) ≡ true },
    ghost none_taken: { count ≡ 0 → (s w : ℕ) → cell table.cells s w ≡ empty },
}

impl Board {
    /// An empty board for the day, of the capacity stated, cut to 30,000.
    pub fn new(day: LawfulDay, capacity: usize) -> Board
        ensures { ⟦<Board as Book>⟧.meaning result ≡ fresh day (min capacity 30000) }
    {
        // A board takes at most 40 KiB. Not in a constant: that is evaluated before the prover, which could then refuse no edit of it.
        prove!(size_of::<Board>() <= 40_960);
        Board {
            table: Table::empty(),
            day: day.day(),
            capacity: capacity.min(MOST) as u16,
            count: 0,
        }
    }
}

impl Book for Board {
    ghost meaning = { λ b. tabled b.day b.capacity b.count b.table.cells };

    // A board is lent no memory.
    ghost Memory = { Unit {0} };

    ghost memory = { λ _. tt };

    ghost with_stored = { λ memory _ _. memory };

    ghost lawful = { λ b. table_is_lawful b.day b.capacity b.count b.table.cells b.lawful_day b.most b.room b.bounds b.none_taken };

    fn take(&mut self, entry: Entry) -> Result<(), BookFault> {
        let day = self.day();
        admit(
            &day,
            usize::from(self.count),
            usize::from(self.capacity),
            &entry,
        )?;
        self.table.enter_all(&day, &entry);
        self.count += 1;
        Ok(())
    }

    fn figures(&self, series: u8, window: u8) -> Figures {
        self.table.at(series, window)
    }

    fn day(&self) -> Day {
        self.day
    }

    fn capacity(&self) -> u16 {
        self.capacity
    }

    fn count(&self) -> u16 {
        self.count
    }
}

impl Reusable for Board {
    fn begin(&mut self, day: LawfulDay) {
        self.table.clear();
        self.day = day.day();
        self.count = 0;
    }
}
