// The line form: a command and its numbers, with one space between fields. A minus alone is a missing number. Much of it
// stands in `both` too: the two programs have no crate of their own in common.
use anyhow::anyhow;
use book::days::Day;
use book::entries::{Entry, Kind};

pub(crate) enum Line {
    Day(Day),
    Entry(Entry),
}

// The numbers of a line, in their order; missing ones are None.
fn numbers(fields: &str) -> anyhow::Result<[Option<i64>; 5]> {
    let mut found = [None; 5];
    let mut places = found.iter_mut();
    for field in fields.split(' ') {
        let Some(place) = places.next() else {
            return Err(anyhow!("too many fields"));
        };
        if field != "-" {
            *place = Some(field.parse::<i64>()?);
        }
    }
    Ok(found)
}

// `day`: night opening, day opening, afternoon opening, close, morning cut.
fn day_of(fields: &str) -> anyhow::Result<Day> {
    match numbers(fields)? {
        [
            Some(night),
            Some(opening),
            Some(afternoon),
            Some(close),
            Some(cut),
        ] => Ok(Day {
            night,
            opening,
            afternoon,
            close,
            cut,
        }),
        _ => Err(anyhow!("a day line has five numbers")),
    }
}

// `trade`, `auction` and `leg` have price and lots, `spread` the difference, `quote` bid and ask.
fn kind_of(command: &str, first: Option<i64>, second: Option<i64>) -> anyhow::Result<Kind> {
    match (command, first, second) {
        ("quote", bid, ask) => Ok(Kind::Quote { bid, ask }),
        (_, None, _) => Err(anyhow!("a price is missing")),
        ("spread", Some(difference), _) => Ok(Kind::Spread { difference }),
        (_, _, None) => Err(anyhow!("the lots are missing")),
        ("trade", Some(price), Some(lots)) => Ok(Kind::Trade { price, lots }),
        ("auction", Some(price), Some(lots)) => Ok(Kind::Auction { price, lots }),
        ("leg", Some(price), Some(lots)) => Ok(Kind::Leg { price, lots }),
        _ => Err(anyhow!("no such command")),
    }
}

// An entry line: its kind, the series, the stamp, and the numbers of the kind.
fn entry_of(command: &str, fields: &str) -> anyhow::Result<Entry> {
    match numbers(fields)? {
        [None, ..] => Err(anyhow!("the series is missing")),
        [_, None, ..] => Err(anyhow!("the stamp is missing")),
        [Some(series), Some(stamp), first, second, _] => Ok(Entry {
            series,
            stamp,
            kind: kind_of(command, first, second)?,
        }),
    }
}

pub(crate) fn line_of(line: &str) -> anyhow::Result<Line> {
    match line.split_once(' ') {
        Some(("day", fields)) => Ok(Line::Day(day_of(fields)?)),
        Some((command, fields)) => Ok(Line::Entry(entry_of(command, fields)?)),
        None => Err(anyhow!("the series is missing")),
    }
}
