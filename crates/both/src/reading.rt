// The line form: a command and its fields, with one space between them. A minus alone is a missing number. Much of it
// stands in `figures` too: the two programs have no crate of their own in common.
use anyhow::anyhow;
use book::days::Day;
use book::entries::{Entry, Kind};
use calls::call::Call;
use house::phases::Bell;
use house::terms::Listing;
use rows::places::Marks;
use std::alloc::Global;

// The day record and the ticks of its ladders, as they are read.
#[derive(Drop)]
pub(crate) struct Opening {
    pub(crate) day: Day,
    pub(crate) ticks: Vec<i64>,
}

// A number, or a minus.
fn number_of(field: &str) -> anyhow::Result<Option<i64>> {
    match field {
        "-" => Ok(None),
        _ => Ok(Some(field.parse()?)),
    }
}

fn numbers(heap: Global, fields: &str) -> anyhow::Result<Vec<Option<i64>>> {
    fields.split(' ').map(number_of).try_collect(heap)
}

// One to four ticks.
fn ticks_of(heap: Global, numbers: &[Option<i64>]) -> anyhow::Result<Vec<i64>> {
    let ticks: Vec<i64> = numbers
        .iter()
        .map(|number| number.ok_or_else(|| anyhow!("a tick is missing")))
        .try_collect(heap)?;
    if ticks.is_empty() || ticks.len() > 4 {
        return Err(anyhow!("a day line has one to four ticks"));
    }
    Ok(ticks)
}

// `day`: night opening, day opening, afternoon opening, close, morning cut, and the ticks.
pub(crate) fn opening_of(heap: Global, line: &str) -> anyhow::Result<Opening> {
    let Some(("day", fields)) = line.split_once(' ') else {
        return Err(anyhow!("the first line is no day line"));
    };
    let numbers = numbers(heap, fields)?;
    match numbers.as_slice() {
        [
            Some(night),
            Some(opening),
            Some(afternoon),
            Some(close),
            Some(cut),
            ticks @ ..,
        ] => Ok(Opening {
            day: Day {
                night: *night,
                opening: *opening,
                afternoon: *afternoon,
                close: *close,
                cut: *cut,
            },
            ticks: ticks_of(heap, ticks)?,
        }),
        _ => Err(anyhow!("a day line has five stamps")),
    }
}

// A mark stands by 1 and does not by 0.
fn mark_of(number: i64) -> anyhow::Result<bool> {
    match number {
        0 => Ok(false),
        1 => Ok(true),
        _ => Err(anyhow!("a mark is 0 or 1")),
    }
}

// `bell`: open or close.
fn bell_of(word: &str) -> anyhow::Result<Bell> {
    match word {
        "open" => Ok(Bell::Open),
        "close" => Ok(Bell::Close),
        _ => Err(anyhow!("no such bell")),
    }
}

// `list`: family, ladder, reference, previous settlement, previous spread, last-day mark, quarter-end mark.
fn listing_of(numbers: &[Option<i64>]) -> anyhow::Result<Listing> {
    match numbers {
        [
            Some(family),
            Some(ladder),
            reference,
            previous_settlement,
            previous_spread,
            Some(last_day),
            Some(quarter_end),
        ] => Ok(Listing {
            family: *family,
            ladder: *ladder,
            reference: *reference,
            previous_settlement: *previous_settlement,
            previous_spread: *previous_spread,
            marks: Marks {
                last_day: mark_of(*last_day)?,
                quarter_end: mark_of(*quarter_end)?,
            },
        }),
        _ => Err(anyhow!("a list line has a family, a ladder, three numbers and two marks")),
    }
}

// `trade`, `auction` and `leg` have price and lots, `spread` the difference, `quote` bid and ask.
fn kind_of(command: &str, numbers: &[Option<i64>]) -> anyhow::Result<Kind> {
    match (command, numbers) {
        ("trade", [Some(price), Some(lots)]) => Ok(Kind::Trade {
            price: *price,
            lots: *lots,
        }),
        ("auction", [Some(price), Some(lots)]) => Ok(Kind::Auction {
            price: *price,
            lots: *lots,
        }),
        ("leg", [Some(price), Some(lots)]) => Ok(Kind::Leg {
            price: *price,
            lots: *lots,
        }),
        ("spread", [Some(difference)]) => Ok(Kind::Spread {
            difference: *difference,
        }),
        ("quote", [bid, ask]) => Ok(Kind::Quote {
            bid: *bid,
            ask: *ask,
        }),
        _ => Err(anyhow!("no such command, or not its numbers")),
    }
}

// An entry line: its kind, the series, the stamp, and the numbers of the kind.
fn entry_of(command: &str, numbers: &[Option<i64>]) -> anyhow::Result<Entry> {
    match numbers {
        [Some(series), Some(stamp), rest @ ..] => Ok(Entry {
            series: *series,
            stamp: *stamp,
            kind: kind_of(command, rest)?,
        }),
        _ => Err(anyhow!("an entry line has a series and a stamp")),
    }
}

// `theory`: series and value.
fn theory_of(numbers: &[Option<i64>]) -> anyhow::Result<Call> {
    match numbers {
        [Some(series), value] => Ok(Call::SetTheory {
            series: *series,
            value: *value,
        }),
        _ => Err(anyhow!("a theory line has a series and a value")),
    }
}

// `ruling`: series, value and first mark.
fn ruling_of(numbers: &[Option<i64>]) -> anyhow::Result<Call> {
    match numbers {
        [Some(series), value, Some(first)] => Ok(Call::SetRuling {
            series: *series,
            value: *value,
            first: mark_of(*first)?,
        }),
        _ => Err(anyhow!("a ruling line has a series, a value and a mark")),
    }
}

// Every line but the day line is a call.
pub(crate) fn call_of(heap: Global, line: &str) -> anyhow::Result<Call> {
    let Some((command, fields)) = line.split_once(' ') else {
        return Err(anyhow!("a line has a command and its fields"));
    };
    if command == "bell" {
        return Ok(Call::Ring(bell_of(fields)?));
    }
    let numbers = numbers(heap, fields)?;
    match command {
        "list" => Ok(Call::List(listing_of(numbers.as_slice())?)),
        "theory" => theory_of(numbers.as_slice()),
        "ruling" => ruling_of(numbers.as_slice()),
        _ => Ok(Call::Enter(entry_of(command, numbers.as_slice())?)),
    }
}
