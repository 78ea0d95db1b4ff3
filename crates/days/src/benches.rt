// The three that answer the lines of a day, held against each other.
use crate::tallies::Tally;
use crate::trades::Trades;
use answers::faults::LineFault;
use anyhow::{anyhow, ensure};
use board::boards::Board;
use book::books::Reusable;
use book::entries::Entry;
use book::lawful::LawfulDay;
use desk::desks::Desk;
use second::seconds::Second;
use std::alloc::{AllocError, Global};
use std::str;
use tape::tapes::Tape;

// An answer takes up to so many bytes. From the rules and not from `answers`, so that another number there is noticed.
const ROOM: usize = 96;

// The answer of a desk, as text.
fn desk_answer<B: Reusable>(
    alloc: Global,
    desk: &mut Desk,
    book: &mut B,
    line: &[u8],
) -> anyhow::Result<String> {
    let mut buffer = [0; ROOM];
    let len = desk
        .respond(book, line, &mut buffer)
        .map_err(|_| anyhow!("no answer"))?;
    let answer = buffer
        .get(..len)
        .ok_or_else(|| anyhow!("too long an answer"))?;
    Ok(String::from_str(alloc, str::from_utf8(answer)?)?)
}

// A buffer of 95 bytes is refused.
fn short_is_refused<B: Reusable>(desk: &mut Desk, book: &mut B, line: &[u8]) -> bool {
    let mut buffer = [b'x'; ROOM - 1];
    let written = desk.respond(book, line, &mut buffer);
    written == Err(LineFault::ShortBuffer) && buffer == [b'x'; ROOM - 1]
}

// Fails where the three answers to a line differ, and prints them.
fn compare(
    rt: &HostRuntime,
    line: &[u8],
    board: &str,
    tape: &str,
    second: &str,
) -> anyhow::Result<()> {
    if board == tape && tape == second {
        return Ok(());
    }
    let shown = String::from_utf8_lossy(rt.alloc(), line)?;
    println!(rt; "line {shown:?}")?;
    println!(rt; "board: {board}")?;
    println!(rt; "tape: {tape}")?;
    println!(rt; "second: {second}")?;
    Err(anyhow!("the answers differ"))
}

// A desk over a board, a desk over a tape, and the second settlement.
#[derive(Drop)]
pub(crate) struct Bench<'a> {
    on_board: Desk,
    board: Board,
    on_tape: Desk,
    tape: Tape<'a>,
    second: Second,
    trades: Trades,
}

impl<'a> Bench<'a> {
    // Before a day; the slots are the places of its book.
    pub(crate) fn new(alloc: Global, slots: &'a mut [Entry]) -> Bench<'a> {
        let capacity = slots.len();
        Bench {
            on_board: Desk::new(),
            board: Board::new(LawfulDay::least(), capacity),
            on_tape: Desk::new(),
            tape: Tape::new(LawfulDay::least(), slots),
            second: Second::new(alloc, capacity),
            trades: Trades::new(alloc),
        }
    }

    fn short_is_refused(&mut self, line: &[u8]) -> bool {
        short_is_refused(&mut self.on_board, &mut self.board, line)
            && short_is_refused(&mut self.on_tape, &mut self.tape, line)
    }

    // The answer that all three give.
    fn answer(&mut self, rt: &HostRuntime, line: &[u8]) -> anyhow::Result<String> {
        let alloc = rt.alloc();
        let by_board = desk_answer(alloc, &mut self.on_board, &mut self.board, line)?;
        let by_tape = desk_answer(alloc, &mut self.on_tape, &mut self.tape, line)?;
        let by_second = self.second.answer(line)?;
        compare(
            rt,
            line,
            by_board.as_str(),
            by_tape.as_str(),
            by_second.as_str(),
        )?;
        Ok(by_second)
    }

    // Answers all lines. Now and then a line comes with a short buffer first, which must change nothing.
    pub(crate) fn answer_all(
        &mut self,
        rt: &HostRuntime,
        lines: &[Vec<u8>],
        tally: &mut Tally,
    ) -> anyhow::Result<()> {
        for (index, line) in lines.iter().enumerate() {
            let line = line.as_slice();
            if index % 100 == 0 {
                ensure!(self.short_is_refused(line), "a short buffer is taken");
                tally.add_short_buffer();
            }
            let answer = self.answer(rt, line)?;
            self.count(line, answer.as_str(), tally)?;
        }
        Ok(())
    }

    fn count(&mut self, line: &[u8], answer: &str, tally: &mut Tally) -> Result<(), AllocError> {
        if answer == "done" {
            self.trades.keep(line)?;
        }
        if let Some(left_out) = self.trades.left_out_by(answer)? {
            tally.add_left_out(left_out);
        }
        tally.add_answer(answer)
    }
}
