// What a line says: the parts that each command wants, held against the fields.
use crate::evidence::{Deal, Entry, Kind, Record};
use crate::fields::{fields_of, number_of};
use crate::refusals::{Refusal, Stop};
use crate::rows::Edition;
use crate::terms::Terms;
use std::alloc::{AllocError, Global};

const LONGEST: usize = 200;

#[derive(Clone, Copy)]
pub(crate) enum Bell {
    Open,
    Close,
}

#[derive(Clone, Copy)]
pub(crate) enum Call {
    Day {
        record: Record,
        ticks: [i64; 4],
    },
    List(Terms),
    Bell(Bell),
    Entry(Entry),
    Theory {
        series: i64,
        value: Option<i64>,
    },
    Ruling {
        series: i64,
        value: Option<i64>,
        first: bool,
    },
    Settle {
        series: i64,
        edition: Edition,
    },
}

// What may stand in a place of a line. An optional number may be missing.
#[derive(Clone, Copy)]
enum Part {
    Number,
    Optional,
    Mark,
    Bell,
    Edition,
}

#[derive(Clone, Copy)]
enum Value {
    Number(i64),
    Missing,
    Mark(bool),
    Bell(Bell),
    Edition(Edition),
}

const DAY: [Part; 9] = [Part::Number; 9];

const LIST: [Part; 7] = [
    Part::Number,
    Part::Number,
    Part::Optional,
    Part::Optional,
    Part::Optional,
    Part::Mark,
    Part::Mark,
];

const BELL: [Part; 1] = [Part::Bell];

const DEAL: [Part; 4] = [Part::Number; 4];

const SPREAD: [Part; 3] = [Part::Number; 3];

const QUOTE: [Part; 4] = [Part::Number, Part::Number, Part::Optional, Part::Optional];

const THEORY: [Part; 2] = [Part::Number, Part::Optional];

const RULING: [Part; 3] = [Part::Number, Part::Optional, Part::Mark];

const SETTLE: [Part; 2] = [Part::Number, Part::Edition];

fn parts_of(command: &[u8]) -> Option<&'static [Part]> {
    match command {
        b"day" => Some(&DAY),
        b"list" => Some(&LIST),
        b"bell" => Some(&BELL),
        b"trade" | b"auction" | b"leg" => Some(&DEAL),
        b"spread" => Some(&SPREAD),
        b"quote" => Some(&QUOTE),
        b"theory" => Some(&THEORY),
        b"ruling" => Some(&RULING),
        b"settle" => Some(&SETTLE),
        _ => None,
    }
}

// What a field says in the place of a part; nothing if it is wrong there.
fn value_of(alloc: Global, part: Part, field: &[u8]) -> Result<Option<Value>, AllocError> {
    let value = match (part, field) {
        (Part::Optional, b"-") => Some(Value::Missing),
        (Part::Number | Part::Optional, _) => number_of(alloc, field)?.map(Value::Number),
        (Part::Mark, b"0") => Some(Value::Mark(false)),
        (Part::Mark, b"1") => Some(Value::Mark(true)),
        (Part::Bell, b"open") => Some(Value::Bell(Bell::Open)),
        (Part::Bell, b"close") => Some(Value::Bell(Bell::Close)),
        (Part::Edition, b"close") => Some(Value::Edition(Edition::Close)),
        (Part::Edition, b"morning") => Some(Value::Edition(Edition::Morning)),
        _ => None,
    };
    Ok(value)
}

fn wrong(place: usize) -> Stop {
    Stop::Refused(Refusal::Grammar { place })
}

// The call that a line is. Too long a line has the place 200; else the first field that is wrong tells the place, then what
// lacks, then what is left over.
pub(crate) fn call_of(alloc: Global, line: &[u8]) -> Result<Call, Stop> {
    if line.len() > LONGEST {
        return Err(wrong(LONGEST));
    }
    let fields = fields_of(alloc, line)?;
    let (command, fields) = fields.as_slice().split_first().ok_or(wrong(0))?;
    let parts = parts_of(command.text).ok_or(wrong(0))?;
    let mut values = Vec::new(alloc);
    for (part, field) in parts.iter().zip(fields) {
        let value = value_of(alloc, *part, field.text)?;
        values.push(value.ok_or(wrong(field.start))?)?;
    }
    if let Some(more) = fields.get(parts.len()) {
        return Err(wrong(more.start.saturating_sub(1)));
    }
    call_by(command.text, values.as_slice()).ok_or(wrong(line.len()))
}

// The call of a command with its values; none if some lack.
fn call_by(command: &[u8], values: &[Value]) -> Option<Call> {
    match (command, values) {
        (b"day", numbers) => day_by(numbers),
        (b"list", terms) => terms_by(terms).map(Call::List),
        (b"bell", [Value::Bell(bell)]) => Some(Call::Bell(*bell)),
        (b"theory", [Value::Number(series), value]) => Some(Call::Theory {
            series: *series,
            value: optional(*value),
        }),
        (b"ruling", [Value::Number(series), value, Value::Mark(first)]) => Some(Call::Ruling {
            series: *series,
            value: optional(*value),
            first: *first,
        }),
        (b"settle", [Value::Number(series), Value::Edition(edition)]) => Some(Call::Settle {
            series: *series,
            edition: *edition,
        }),
        (_, [Value::Number(series), Value::Number(stamp), values @ ..]) => {
            kind_by(command, values).map(|kind| {
                Call::Entry(Entry {
                    series: *series,
                    stamp: *stamp,
                    kind,
                })
            })
        }
        _ => None,
    }
}

fn optional(value: Value) -> Option<i64> {
    match value {
        Value::Number(number) => Some(number),
        _ => None,
    }
}

fn day_by(values: &[Value]) -> Option<Call> {
    match values {
        [
            Value::Number(night),
            Value::Number(opening),
            Value::Number(afternoon),
            Value::Number(close),
            Value::Number(cut),
            Value::Number(first),
            Value::Number(second),
            Value::Number(third),
            Value::Number(fourth),
        ] => Some(Call::Day {
            record: Record {
                night: *night,
                opening: *opening,
                afternoon: *afternoon,
                close: *close,
                cut: *cut,
            },
            ticks: [*first, *second, *third, *fourth],
        }),
        _ => None,
    }
}

fn terms_by(values: &[Value]) -> Option<Terms> {
    match values {
        [
            Value::Number(family),
            Value::Number(ladder),
            reference,
            previous,
            spread,
            Value::Mark(last_day),
            Value::Mark(quarter_end),
        ] => Some(Terms {
            family: *family,
            ladder: *ladder,
            reference: optional(*reference),
            previous: optional(*previous),
            spread: optional(*spread),
            last_day: *last_day,
            quarter_end: *quarter_end,
        }),
        _ => None,
    }
}

fn kind_by(command: &[u8], values: &[Value]) -> Option<Kind> {
    match (command, values) {
        (b"spread", [Value::Number(difference)]) => Some(Kind::Spread {
            difference: *difference,
        }),
        (b"quote", [bid, ask]) => Some(Kind::Quote {
            bid: optional(*bid),
            ask: optional(*ask),
        }),
        (_, [Value::Number(price), Value::Number(lots)]) => {
            let deal = Deal {
                price: *price,
                lots: *lots,
            };
            deal_by(command, deal)
        }
        _ => None,
    }
}

fn deal_by(command: &[u8], deal: Deal) -> Option<Kind> {
    match command {
        b"trade" => Some(Kind::Trade(deal)),
        b"auction" => Some(Kind::Auction(deal)),
        b"leg" => Some(Kind::Leg(deal)),
        _ => None,
    }
}
