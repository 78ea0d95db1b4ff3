// A day record that was found lawful.
ghost use Rattle.std.specs.Prelude.{◌≡◌, true, false, MatchResult};
ghost use Rattle.book.specs.Days.{is_lawful_day, least_day};
ghost use Rattle.book.specs.declared.faults.DayFault.TheVariants.{NotLawful};

use crate::days::Day;
use crate::faults::DayFault;
use std::marker::Model;

// The last second of the evening session's date.
const EVENING_END: i64 = 86_399;

// The first second of the next date.
const MIDNIGHT: i64 = 86_400;

// The last second of the next date.
pub(crate) const DAY_END: i64 = 172_799;

/// A day record that is lawful. Contracts see it as the day record.
#[derive(Clone, Copy)]
pub struct LawfulDay {
    day: Day,
}

impl Model for LawfulDay {
    ghost use Rattle.std.specs.Prelude.{◌≡◌, true};
    ghost use Rattle.book.specs.Days.{is_lawful_day};
    ghost use Rattle.book.specs.declared.days.Day.{Day};

    ghost Value = { Day };

    ghost view = { λ l. l.day };

    ghost invariant = { λ l. is_lawful_day l.day ≡ true };

    ghost inverse = { λ d. record { day = d } };
}

// Night opening on the first date; day opening, afternoon opening and close on the next, in this order, the afternoon before
// the close; the cut between day opening and close.
fn is_lawful_day(day: &Day) -> bool
    ensures { result ≡ is_lawful_day day.now }
{
    // Comparisons joined by `&`: with `&&` for them, or with `contains` of a range for the first two, the goal stays open.
    let night = (0 <= day.night) & (day.night <= EVENING_END);
    let openings = (MIDNIGHT <= day.opening) & (day.opening <= day.afternoon);
    let close = (day.afternoon < day.close) & (day.close <= DAY_END);
    let cut = (day.opening < day.cut) & (day.cut < day.close);
    (night & openings) & (close & cut)
}

impl LawfulDay {
    /// The day record, if it is lawful; `NotLawful` if it is not.
    // `TryFrom` would read no plainer: `LawfulDay::new` says what is made.
    pub fn new(day: Day) -> Result<LawfulDay, DayFault>
        ensures { MatchResult result (λ l. (is_lawful_day day ≡ true) × (l ≡ day)) (λ f. (is_lawful_day day ≡ false) × (f ≡ NotLawful)) }
    {
        if !is_lawful_day(&day) {
            return Err(DayFault::NotLawful);
        }
        Ok(LawfulDay { day })
    }

    /// The lawful day with the least stamps, for a book that waits for a day to begin.
    pub fn least() -> LawfulDay
        ensures { result ≡ least_day }
    {
        LawfulDay {
            day: Day {
                night: 0,
                opening: MIDNIGHT,
                afternoon: MIDNIGHT,
                close: MIDNIGHT + 2,
                cut: MIDNIGHT + 1,
            },
        }
    }

    /// The day record.
    pub fn day(&self) -> Day
        ensures value { result ≡ self.now }
        ensures lawful { is_lawful_day result ≡ true }
    {
        self.day
    }
}
