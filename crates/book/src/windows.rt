// The thirteen windows of a day, each a first and a last second, both included. A window is empty where the first is later.
ghost use Rattle.std.specs.Prelude.{◌≡◌};
ghost use Rattle.book.specs.Windows.{second_before, edges, windows};

use crate::days::Day;

// Clock times of the rules, on the date after the evening session's: 86,400 seconds and the time of day.

// Window 7 begins.
const AT_08_45: i64 = 117_900;

// Windows 10 and 13 begin.
const AT_10_45: i64 = 125_100;

// Window 10 ends.
const AT_11_00: i64 = 126_000;

// Windows 8 and 9 end.
const AT_11_02: i64 = 126_120;

// Window 6 begins.
const AT_13_45: i64 = 135_900;

// Window 3 begins.
const AT_14_50: i64 = 139_800;

// Window 5 begins.
const AT_15_30: i64 = 142_200;

// Windows 6 and 7 end.
const AT_15_45: i64 = 143_100;

// An empty window.
const NOTHING: (i64, i64) = (1, 0);

// The second before a stamp. None lies before second 0, so that from there down a stamp stays as it is.
fn second_before(stamp: i64) -> i64
    ensures { result ≡ second_before stamp }
{
    if 0 < stamp { stamp - 1 } else { stamp }
}

/// The first and the last second of a window of the day, both included, from the midnight that begins the evening session's date; of
/// a number that no window has, an empty one. The window is a raw number, since a narrower type would ask more of callers.
pub fn edges(day: &Day, window: u8) -> (i64, i64)
    ensures { result ≡ edges day.now window }
{
    match window {
        1 => (day.night, day.close),
        2 => (day.opening, day.close),
        3 => (AT_14_50, day.close),
        4 => (day.afternoon, day.close),
        5 => (AT_15_30, day.close),
        6 => (AT_13_45, AT_15_45),
        7 => (AT_08_45, AT_15_45),
        8 => (day.opening, AT_11_02),
        9 => (day.night, AT_11_02),
        10 => (AT_10_45, AT_11_00),
        11 => (day.opening, second_before(day.cut)),
        12 => (day.night, second_before(day.cut)),
        13 => (AT_10_45, second_before(day.cut)),
        _ => NOTHING,
    }
}

/// The windows of the day by their numbers, each a first and a last second, as the rules have them in pairs. Number 0 is no window, and
/// empty.
// A tape asks for one window, and a board for all: so each is worked out by itself, and listed here.
pub fn windows(day: &Day) -> [(i64, i64); 14]
    ensures { result ≡ windows day.now }
{
    [
        NOTHING,
        edges(day, 1),
        edges(day, 2),
        edges(day, 3),
        edges(day, 4),
        edges(day, 5),
        edges(day, 6),
        edges(day, 7),
        edges(day, 8),
        edges(day, 9),
        edges(day, 10),
        edges(day, 11),
        edges(day, 12),
        edges(day, 13),
    ]
}
