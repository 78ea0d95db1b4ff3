// Going through entries.
ghost use Rattle.std.specs.Prelude.{◌≡◌, fold};
ghost use Rattle.book.specs.Figures.{empty, entered_if};

use book::entries::Entry;
use book::figures::Figures;

// The figures of a series and of a window with these edges, from every entry in the order taken.
pub(crate) fn scan(entries: &[Entry], series: u8, edges: (i64, i64)) -> Figures
    ensures { result ≡ fold (entered_if series edges) empty entries.now }
{
    // A loop, since `enter_in` changes the figures in place.
    let mut figures = Figures::empty();
    for e in entries {
        figures.enter_in(e, series, edges);
    }
    figures
}
