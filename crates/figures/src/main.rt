// Reads one small day and its entries from standard input, enters them into a tape and a board, and prints the figures of
// both side by side.
#![tactic(auto)]

mod reading;
mod showing;

use crate::reading::{Line, line_of};
use crate::showing::ShownFigures;
use anyhow::anyhow;
use board::boards::Board;
use book::books::Book;
use book::days::Day;
use book::entries::{Entry, SERIES};
use book::figures::Figures;
use book::lawful::LawfulDay;
use book::takings::take_both;
use tape::tapes::{BLANK, Tape};

// A small day: more entries than these find the books full. It stands in `both` too: the two programs have no crate of their
// own in common.
const PLACES: usize = 256;

// The windows are numbered from 1. `board` has the number too, for itself; `book` needs none.
const WINDOWS: u8 = 13;

// The day of the input, if it has one, and the entries in their order.
fn read(rt: &HostRuntime) -> anyhow::Result<(Option<Day>, Vec<Entry>)> {
    let heap = rt.alloc();
    let mut day = None;
    let mut entries = Vec::new(heap);
    for line in rt.lines(heap) {
        match line_of(line?.as_str())? {
            Line::Day(record) => day = Some(record),
            Line::Entry(entry) => entries.push(entry)?,
        }
    }
    Ok((day, entries))
}

// How books that agree, or do not, are told.
fn verdict(same: bool) -> &'static str {
    if same { "equal" } else { "differ" }
}

// One line for a series and window for which a book has figures, and whether the books agree there.
fn compare<A: Book, B: Book>(
    rt: &impl Print,
    one: &A,
    other: &B,
    series: u8,
    window: u8,
) -> anyhow::Result<bool> {
    let a = one.figures(series, window);
    let b = other.figures(series, window);
    let same = a == b;
    if a != Figures::default() || !same {
        println!(rt;
            "series {series} window {window} tape {} board {} {}",
            ShownFigures(a),
            ShownFigures(b),
            verdict(same)
        )?;
    }
    Ok(same)
}

// The figures of every series and window, and whether the books agree in all of them.
fn compare_all<A: Book, B: Book>(rt: &impl Print, one: &A, other: &B) -> anyhow::Result<bool> {
    let mut all = true;
    for series in 0..SERIES {
        for window in 1..=WINDOWS {
            all &= compare(rt, one, other, series, window)?;
        }
    }
    Ok(all)
}

fn run(rt: &HostRuntime) -> anyhow::Result<()> {
    let (day, entries) = read(rt)?;
    let day = day.ok_or_else(|| anyhow!("no day line"))?;
    let lawful = match LawfulDay::new(day) {
        Ok(lawful) => lawful,
        Err(fault) => {
            println!(rt; "refused {}", fault.number())?;
            return Ok(());
        }
    };
    let mut slots = [BLANK; PLACES];
    let mut tape = Tape::new(lawful, &mut slots);
    let mut board = Board::new(lawful, PLACES);
    let (on_tape, on_board) = take_both(&mut tape, &mut board, &entries);
    let count = entries.len();
    println!(rt; "entries {count} tape {on_tape} board {on_board}")?;
    let all = compare_all(rt, &tape, &board)?;
    println!(rt; "{}", verdict(all))?;
    Ok(())
}

fn main(rt: HostRuntime) -> anyhow::Result<()> {
    run(&rt)
}
