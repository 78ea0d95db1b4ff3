// Day records, lawful and not, and the stamps near the edges of their windows.
use crate::chance::Chance;
use book::days::Day;

const LAST_NIGHT: i64 = 86_399;

const FIRST_DAY: i64 = 86_400;

const LAST_DAY: i64 = 172_799;

// A usual day: no window is empty in it.
const USUAL: Day = Day {
    night: 61_200,
    opening: 117_900,
    afternoon: 131_400,
    close: 143_100,
    cut: 126_000,
};

// The seconds that some window begins or ends at whatever the day.
const SECONDS: [i64; 8] = [
    117_900, 125_100, 126_000, 126_120, 135_900, 139_800, 142_200, 143_100,
];

fn near_a_second(chance: &mut Chance) -> i64 {
    chance.of(&SECONDS).saturating_add(chance.between(-1, 1))
}

fn within(second: i64, first: i64, last: i64) -> i64 {
    second.max(first).min(last)
}

// A second from first to last, at its ends, near where a window begins or ends, or anywhere.
fn some_second(chance: &mut Chance, first: i64, last: i64) -> i64 {
    let second = match chance.below(4) {
        0 => first,
        1 => last,
        2 => near_a_second(chance),
        _ => chance.between(first, last),
    };
    within(second, first, last)
}

pub(crate) fn lawful(chance: &mut Chance) -> Day {
    if chance.percent(50) {
        return USUAL;
    }
    let night = some_second(chance, 0, LAST_NIGHT);
    let opening = some_second(chance, FIRST_DAY, LAST_DAY - 2);
    let afternoon = some_second(chance, opening, LAST_DAY - 1);
    let earliest = afternoon.max(opening.saturating_add(1)).saturating_add(1);
    let close = some_second(chance, earliest, LAST_DAY);
    let cut = some_second(chance, opening.saturating_add(1), close.saturating_sub(1));
    Day {
        night,
        opening,
        afternoon,
        close,
        cut,
    }
}

// A record with one stamp moved to or over an edge of what is lawful; it may stay lawful.
pub(crate) fn moved(chance: &mut Chance, record: Day) -> Day {
    let mut moved = record;
    match chance.below(5) {
        0 => moved.night = chance.of(&[-1, 0, LAST_NIGHT, FIRST_DAY]),
        1 => moved.opening = chance.of(&[LAST_NIGHT, record.afternoon.saturating_add(1), -1]),
        2 => moved.afternoon = chance.of(&[record.opening.saturating_sub(1), record.close]),
        3 => moved.close = chance.of(&[record.afternoon, record.cut, LAST_DAY, LAST_DAY + 1]),
        _ => moved.cut = chance.of(&[record.opening, record.close]),
    }
    moved
}

// A stamp near where a window of the day begins or ends.
fn near_an_edge(chance: &mut Chance, record: Day) -> i64 {
    let edge = match chance.below(3) {
        0 => chance.of(&SECONDS),
        _ => chance.of(&[
            record.night,
            record.opening,
            record.afternoon,
            record.close,
            record.cut,
        ]),
    };
    edge.saturating_add(chance.between(-1, 1))
}

// Mostly within the day.
pub(crate) fn stamp(chance: &mut Chance, record: Day) -> i64 {
    let drawn = if chance.percent(60) {
        near_an_edge(chance, record)
    } else {
        chance.between(record.opening, record.close)
    };
    if chance.percent(92) {
        within(drawn, record.night, record.close)
    } else {
        drawn
    }
}
