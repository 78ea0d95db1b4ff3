// Cases of the house, worked out by hand from the rules. A line of input that begins with `# ` is the title of a case; the lines
// after it, up to the next title, are one whole input. Each is answered by a desk over a board, by one over a tape, and by the
// second settlement; the answers are written below the title, and have to be the same.
#![tactic(auto)]

use anyhow::anyhow;
use board::boards::Board;
use book::books::Reusable;
use book::lawful::LawfulDay;
use second::seconds::Second;
use std::io;
use std::io::Write;
use stream::serving::serve;
use tape::tapes::{BLANK, Tape};

// The places of a book where the title tells no number, and the most that it can tell. Only a case that is to fill its book
// needs a number.
const BOOK_PLACES: usize = 40;

// The places that a title tells, as `2 places: ..` or `1 place: ..`.
fn places_of(title: &str) -> usize {
    match title.split_once(" place") {
        Some((number, _)) => number.parse().unwrap_or(BOOK_PLACES),
        None => BOOK_PLACES,
    }
}

// What is written of an input by way of a book.
fn written<B: Reusable>(rt: &HostRuntime, book: &mut B, input: &[u8]) -> anyhow::Result<Vec<u8>> {
    let mut output = Vec::new(rt.alloc());
    let mut rest = input;
    serve(book, &mut rest, &mut output)?;
    Ok(output)
}

// What the second settlement answers to the lines of an input.
fn written_by_second(rt: &HostRuntime, places: usize, lines: &str) -> anyhow::Result<Vec<u8>> {
    let mut second = Second::new(rt.alloc(), places);
    let mut output = Vec::new(rt.alloc());
    for line in lines.lines() {
        let answer = second.answer(line.as_bytes())?;
        output.extend_from_slice(answer.as_bytes())?;
        output.push(b'\n')?;
    }
    Ok(output)
}

// What is written of an input by way of a board and of a tape of so many places, which are at most `BOOK_PLACES`, and by the second
// settlement; an error if two differ.
fn written_by_all(rt: &HostRuntime, places: usize, lines: &str) -> anyhow::Result<Vec<u8>> {
    let places = places.min(BOOK_PLACES);
    let mut board = Board::new(LawfulDay::least(), places);
    let mut slots = [BLANK; BOOK_PLACES];
    let mut tape = Tape::new(LawfulDay::least(), &mut slots[..places]);
    let by_board = written(rt, &mut board, lines.as_bytes())?;
    let by_tape = written(rt, &mut tape, lines.as_bytes())?;
    let by_second = written_by_second(rt, places, lines)?;
    if by_board != by_tape {
        return Err(anyhow!("the board and the tape differ"));
    }
    if by_board != by_second {
        return Err(anyhow!("the second settlement differs"));
    }
    Ok(by_board)
}

// Writes the title of a case and the answers to its lines.
fn answer_case(rt: &HostRuntime, case: &str) -> anyhow::Result<()> {
    let (title, lines) = case.split_once('\n').unwrap_or((case, ""));
    println!(rt; "# {title}")?;
    let answers = written_by_all(rt, places_of(title), lines)?;
    io::writer(rt).write_all(&answers)?;
    Ok(())
}

fn run(rt: &HostRuntime) -> anyhow::Result<()> {
    let input = io::read_to_string(rt.alloc(), rt.reader())?;
    let Some(cases) = input.strip_prefix("# ") else {
        return Err(anyhow!("the first line is no title"));
    };
    for case in cases.split("\n# ") {
        answer_case(rt, case)?;
    }
    Ok(())
}

fn main(rt: HostRuntime) -> anyhow::Result<()> {
    run(&rt)
}
