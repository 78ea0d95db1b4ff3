// One flat table with a record for each series and window.
ghost use Rattle.std.specs.Prelude.{◌≡◌, ℕ, ◌&&◌, if◌then◌else◌, ◌==◌, nat_eq};
ghost use Rattle.book.specs.Figures.{empty, entered_if, entered_sound};
ghost use Rattle.book.specs.Ledgers.{in_range};
ghost use Rattle.book.specs.Windows.{edges};
ghost use Rattle.board.specs.Cells.{cell, cell_index};

use book::days::Day;
use book::entries::{Entry, SERIES};
use book::figures::{Figures, SoundEntry};
use book::windows::windows;

// Windows are numbered from 1.
const WINDOWS: u8 = 13;

// A record for each series and window.
const CELLS: usize = SERIES as usize * WINDOWS as usize;

// Flat and of a fixed size, with one record changed in place: nothing here allocates.
#[derive(Drop)]
pub(crate) struct Table {
    cells: [Figures; CELLS],
}

// Where the record of a series and window stands, if the table has one.
fn cell_index(series: u8, window: u8) -> Option<usize>
    ensures { result ≡ (if in_range series window then Some (cell_index series window) else None) }
{
    let inside = series < SERIES && (1..=WINDOWS).contains(&window);
    inside.then(|| usize::from(series) * usize::from(WINDOWS) + (usize::from(window) - 1))
}

impl Table {
    // Empty figures everywhere.
    pub(crate) fn empty() -> Table
        ensures { (s w : ℕ) → cell result.cells s w ≡ empty }
    {
        Table {
            cells: [Figures::empty(); CELLS],
        }
    }

    // Every record becomes empty, in place: a second table would take as much of the stack as the board.
    pub(crate) fn clear(&mut self)
        ensures { (s w : ℕ) → cell self.new.cells s w ≡ empty }
    {
        self.cells.fill(Figures::empty());
    }

    // The figures of a series and window; empty outside the table.
    pub(crate) fn at(&self, series: u8, window: u8) -> Figures
        ensures { result ≡ cell self.now.cells series window }
    {
        cell_index(series, window).map_or_else(Figures::empty, |i| self.cells[i])
    }

    // A sound entry enters one record, in place, if a window with these edges holds its stamp; every other record stays.
    fn enter_at(&mut self, series: u8, window: u8, e: &SoundEntry, edges: (i64, i64))
        ensures { (s w : ℕ) →
            let old = cell self.old.cells s w in
            cell self.new.cells s w ≡ (if in_range s w && (nat_eq s series && w == window) then entered_sound edges old e.now else old) }
    {
        if let Some(i) = cell_index(series, window) {
            self.cells[i].enter_sound(e, edges);
        }
    }

    // A sound entry enters the records of its series, window by window.
    fn enter_windows(&mut self, day: &Day, series: u8, e: &SoundEntry)
        ensures { (s w : ℕ) →
            let old = cell self.old.cells s w in
            cell self.new.cells s w ≡ (if in_range s w && nat_eq s series then entered_sound (edges day.now w) old e.now else old) }
    {
        let windows = windows(day);
        for window in 1..=WINDOWS {
            self.enter_at(series, window, e, windows[usize::from(window)]);
        }
    }

    // An entry enters the records of its series. One beyond the limits of any day changes nothing.
    pub(crate) fn enter_all(&mut self, day: &Day, e: &Entry)
        ensures { (s w : ℕ) →
            let old = cell self.old.cells s w in
            cell self.new.cells s w ≡ (if in_range s w then entered_if s (edges day.now w) old e.now else old) }
    {
        let Some(sound) = SoundEntry::new(e) else {
            return;
        };
        if let Ok(series) = u8::try_from(e.series) {
            self.enter_windows(day, series, &sound);
        }
    }
}
