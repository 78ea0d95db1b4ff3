// One input on a board and on a tape of eight places each: what both write, which has to be the same.
#![tactic(auto)]

use anyhow::anyhow;
use board::boards::Board;
use book::books::Reusable;
use book::lawful::LawfulDay;
use std::io;
use std::io::{Read, Write};
use stream::serving::serve;
use tape::tapes::{BLANK, Tape};

// So few that an input can fill them.
const BOOK_PLACES: usize = 8;

// What is written of an input by way of a book.
fn written<B: Reusable>(rt: &HostRuntime, book: &mut B, input: &[u8]) -> anyhow::Result<Vec<u8>> {
    let mut output = Vec::new(rt.alloc());
    let mut rest = input;
    serve(book, &mut rest, &mut output)?;
    Ok(output)
}

fn run(rt: &HostRuntime) -> anyhow::Result<()> {
    let mut input = Vec::new(rt.alloc());
    rt.reader().read_to_end(&mut input)?;
    let mut board = Board::new(LawfulDay::least(), BOOK_PLACES);
    let mut slots = [BLANK; BOOK_PLACES];
    let mut tape = Tape::new(LawfulDay::least(), &mut slots);
    let one = written(rt, &mut board, &input)?;
    let other = written(rt, &mut tape, &input)?;
    if one != other {
        return Err(anyhow!("the board and the tape differ"));
    }
    io::writer(rt).write_all(&one)?;
    Ok(())
}

fn main(rt: HostRuntime) -> anyhow::Result<()> {
    run(&rt)
}
