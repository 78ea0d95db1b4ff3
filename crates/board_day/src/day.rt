// A whole day on a board.
#![tactic(auto, using(stream::proofs::LineByLine::line_by_line))]

ghost use Rattle.std.specs.Prelude.{◌≢◌, IfErr, OnErr, OnOk};
ghost use Rattle.std.specs.IoError.{error_kind};
ghost use Rattle.board_day.specs.Days.{DayServed, DayServedInPart};
ghost use Rattle.stream.specs.Inputs.{AllSplit, SplitLines};
ghost use Rattle.stream.specs.LineByLine.{LineByLine};
ghost use Rattle.stream.specs.Transcripts.{OneTranscript};

use crate::memory::HELD;
use board::boards::Board;
use book::books::MOST;
use book::lawful::LawfulDay;
use std::io;
use std::io::{ErrorKind, Read, Write};
use stream::serving::serve;

/// Answers the lines of an input until it ends, from a desk before any day line and an empty board of 30,000 places. An error is one of
/// `serve`: the answers to all lines that had ended before the last 8,192 bytes read have then been written, and a front of the others'.
/// The other clauses are facts about the definitions used here: no lines have two transcripts, every input falls into lines in one way,
/// and lines are answered one by one, where a refused one leaves house and book as they were.
pub fn serve_day<R: Read, W: Write>(input: &mut R, output: &mut W) -> io::Result<()>
    ensures served { OnOk result (DayServed (R.remaining input.old) (R.remaining input.new) (W.contents output.old) (W.contents output.new)) }
    ensures failed { OnErr result (DayServedInPart (R.remaining input.old) (R.remaining input.new) (W.contents output.old) (W.contents output.new)) }
    ensures again { IfErr result (λ e. error_kind e ≢ ErrorKind.Interrupted) }
    ensures line_by_line { LineByLine }
    ensures once { OneTranscript }
    ensures lines { SplitLines }
    ensures split { AllSplit }
{
    // All that is held fits 64 KiB.
    prove!(HELD <= 65_536);
    // Until a day line comes the board has a day that nothing asks for.
    let mut board = Board::new(LawfulDay::least(), MOST);
    serve(&mut board, input, output)
}
