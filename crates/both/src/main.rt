// Runs one small day, read from standard input, on both makes: a house with even ladders over a board, and a house with
// stepped ladders over a tape. It prints side by side what both answer to every call, and then to the question for the
// price of every series in both editions.
#![tactic(auto)]

mod reading;
mod showing;

use crate::reading::{Opening, call_of, opening_of};
use crate::showing::{Replied, Shown};
use anyhow::anyhow;
use board::boards::Board;
use book::books::Book;
use book::lawful::LawfulDay;
use calls::call::{Call, Reply};
use calls::performing::perform;
use house::houses::House;
use ladders::bands::Band;
use ladders::faults::LadderFault;
use ladders::sets::{EvenSet, LadderSet, SteppedSet};
use rows::places::Edition;
use runs::comparing::{Outcomes, compare_makes};
use tape::tapes::{BLANK, Tape};

// A small day: more entries than these find the books full. It stands in `figures` too: the two programs have no crate of their
// own in common.
const PLACES: usize = 256;

// The line of the first call, after the day line.
const FIRST_CALL: usize = 2;

// Stepped ladders of one band each, of these ticks, at most four, as a day line has. No plainer with vectors: the slices
// borrow from the bands, and to allocate can fail, which is no LadderFault.
fn stepped(ticks: &[i64]) -> Result<SteppedSet, LadderFault> {
    let mut bands = [Band {
        start: None,
        tick: 1,
    }; 4];
    for (band, tick) in bands.iter_mut().zip(ticks) {
        band.tick = *tick;
    }
    let described = [&bands[0..1], &bands[1..2], &bands[2..3], &bands[3..4]];
    SteppedSet::new(&described[0..ticks.len().min(4)])
}

// The ladders in both makes.
fn sets(ticks: &[i64]) -> Result<(EvenSet, SteppedSet), LadderFault> {
    Ok((EvenSet::new(ticks)?, stepped(ticks)?))
}

fn read(rt: &HostRuntime) -> anyhow::Result<(Opening, Vec<Call>)> {
    let heap = rt.alloc();
    let mut lines = rt.lines(heap);
    let first = lines.next().ok_or_else(|| anyhow!("no day line"))??;
    let opening = opening_of(heap, first.as_str())?;
    let calls = lines
        .map(|line| call_of(heap, line?.as_str()))
        .try_collect(heap)?;
    Ok((opening, calls))
}

// Makes every call on both and prints the replies, by the line of the call. The answer is how many series the first house
// listed.
fn perform_all<L: LadderSet, M: LadderSet, A: Book, B: Book>(
    rt: &impl Print,
    one: &mut House<L>,
    board: &mut A,
    other: &mut House<M>,
    tape: &mut B,
    calls: &[Call],
) -> anyhow::Result<i64> {
    let mut listed = 0;
    for (line, call) in (FIRST_CALL..).zip(calls) {
        let a = perform(one, board, call);
        let b = perform(other, tape, call);
        if let Ok(Reply::Listed(number)) = a {
            listed = i64::from(number) + 1;
        }
        println!(rt; "{line}: {} | {}", Replied(a), Replied(b))?;
    }
    Ok(listed)
}

// What both makes answer to the question for a price, after the calls: two runs of the same calls, compared.
fn ask(
    day: LawfulDay,
    (even, stepped): (EvenSet, SteppedSet),
    calls: &[Call],
    series: i64,
    edition: Edition,
) -> Outcomes {
    let mut slots = [BLANK; PLACES];
    compare_makes(
        day, even, PLACES, calls, stepped, &mut slots, calls, series, edition,
    )
}

fn refuse(rt: &impl Print, number: u8) -> anyhow::Result<()> {
    println!(rt; "refused {number}")?;
    Ok(())
}

// One line for a series in an edition, with both answers.
fn answer_question(
    rt: &impl Print,
    day: LawfulDay,
    ticks: &[i64],
    calls: &[Call],
    (series, edition): (i64, Edition),
) -> anyhow::Result<()> {
    match sets(ticks) {
        Ok(makes) => {
            let (a, b) = ask(day, makes, calls, series, edition);
            println!(rt; "series {series} {edition}: {} | {}", Shown(a), Shown(b))?;
            Ok(())
        }
        Err(fault) => refuse(rt, fault.number()),
    }
}

// The replies to the calls, and the answers for every series in both editions.
fn answer_all(
    rt: &impl Print,
    day: LawfulDay,
    ticks: &[i64],
    calls: &[Call],
) -> anyhow::Result<()> {
    let (even, stepped) = match sets(ticks) {
        Ok(makes) => makes,
        Err(fault) => return refuse(rt, fault.number()),
    };
    let mut one = House::new(even);
    let mut board = Board::new(day, PLACES);
    let mut other = House::new(stepped);
    let mut slots = [BLANK; PLACES];
    let mut tape = Tape::new(day, &mut slots);
    let listed = perform_all(rt, &mut one, &mut board, &mut other, &mut tape, calls)?;
    for series in 0..listed {
        answer_question(rt, day, ticks, calls, (series, Edition::Close))?;
        answer_question(rt, day, ticks, calls, (series, Edition::Morning))?;
    }
    Ok(())
}

fn run_day(rt: &HostRuntime) -> anyhow::Result<()> {
    let (opening, calls) = read(rt)?;
    match LawfulDay::new(opening.day) {
        Ok(day) => answer_all(rt, day, opening.ticks.as_slice(), calls.as_slice()),
        Err(fault) => refuse(rt, fault.number()),
    }
}

fn main(rt: HostRuntime) -> anyhow::Result<()> {
    run_day(&rt)
}
