// What a question costs: enters so many entries into a book of a make, and asks so many questions. Its arguments are the make,
// `board` or `tape`, and the two numbers; bench/run.py takes the time. It prints how many questions settled.
#![tactic(auto)]

use anyhow::{Context, anyhow};
use board::boards::Board;
use book::books::{Book, MOST};
use book::days::Day;
use book::entries::{Entry, Kind, SERIES};
use book::lawful::LawfulDay;
use house::houses::House;
use house::phases::Bell;
use house::terms::Listing;
use ladders::sets::EvenSet;
use rows::places::{Edition, Marks};
use std::env;
use tape::tapes::{BLANK, Tape};

const DAY: Day = Day {
    night: 61_200,
    opening: 117_900,
    afternoon: 131_400,
    close: 143_100,
    cut: 126_000,
};

// The bonds that lead, which settle in the morning by a trade.
const LISTING: Listing = Listing {
    family: 1,
    ladder: 0,
    reference: None,
    previous_settlement: None,
    previous_spread: None,
    marks: Marks {
        last_day: false,
        quarter_end: false,
    },
};

// The entry of a number: the series take turns, and the stamps go through the day session.
fn entry(n: u32) -> Entry {
    Entry {
        series: i64::from(n % u32::from(SERIES)),
        stamp: 117_900 + i64::from(n % 25_201),
        kind: Kind::Trade {
            price: i64::from(n) * 10,
            lots: 1,
        },
    }
}

// How many of the questions settle after so many entries.
fn count_settled<B: Book>(book: &mut B, entries: u32, questions: u32) -> anyhow::Result<usize> {
    let set = EvenSet::new(&[10i64]).map_err(|fault| anyhow!("{fault}"))?;
    let mut house = House::new(set);
    for _ in 0..SERIES {
        let _ = house.list(LISTING);
    }
    let _ = house.ring(Bell::Open);
    for n in 0..entries {
        let _ = house.enter(book, entry(n));
    }
    Ok(
        (0..questions)
            .filter(|n| {
                house
                    .settle(book, i64::from(*n % u32::from(SERIES)), Edition::Morning)
                    .is_ok()
            })
            .count(),
    )
}

fn number(word: Option<String>) -> anyhow::Result<u32> {
    let word = word.context("a number is missing")?;
    Ok(word.parse::<u32>()?)
}

fn run(rt: &HostRuntime) -> anyhow::Result<()> {
    let mut words = env::args(rt)?.skip(1);
    let make = words.next().context("no make of book")?;
    let entries = number(words.next())?;
    let questions = number(words.next())?;
    let day = LawfulDay::new(DAY).map_err(|_| anyhow!("no lawful day"))?;
    let settled = match make.as_str() {
        "board" => count_settled(&mut Board::new(day, MOST), entries, questions)?,
        "tape" => count_settled(&mut Tape::new(day, &mut [BLANK; MOST]), entries, questions)?,
        _ => return Err(anyhow!("a book is a board or a tape")),
    };
    println!(rt; "{settled}")?;
    Ok(())
}

fn main(rt: HostRuntime) -> anyhow::Result<()> {
    run(&rt)
}
