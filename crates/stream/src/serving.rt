// A whole input, from the first line to the last.
#![tactic(auto, using(crate::proofs::OneTranscript::one_transcript, crate::proofs::Cutting::lines_split, crate::proofs::Cutting::all_split))]

ghost use Rattle.std.specs.Prelude.{◌≡◌, ◌≢◌, ◌+◌, ◌≤◌, take, IfErr, IfOk, OnErr, OnOk};
ghost use Rattle.std.specs.IoError.{error_kind};
ghost use Rattle.std.specs.Io.KnownBytes.{Consumes, IsAtEnd, Keeps};
ghost use Rattle.stream.specs.Served.{Served, ServedInPart};
ghost use Rattle.stream.specs.Transcripts.{OneTranscript};
ghost use Rattle.stream.specs.Inputs.{AllSplit, SplitLines};

use crate::sessions::Session;
use book::books::Reusable;
use std::io;
use std::io::{ErrorKind, Read, Write};

/// How many bytes of the input are read at once.
pub const PIECE: usize = 8192;

// The next piece of the input; nothing at its end. A read that a signal interrupts is tried again.
fn next_piece<R: Read>(input: &mut R, piece: &mut [u8; PIECE]) -> io::Result<usize>
    ensures within { IfOk result (λ n. n ≤ 8192) }
    ensures read { IfOk result (λ n. Consumes (R.remaining input.old) (R.remaining input.new) (take n piece.new)) }
    ensures end { IfOk result (λ n. n ≡ 0 → IsAtEnd (R.remaining input.new)) }
    ensures kept { OnErr result (Keeps (R.remaining input.old) (R.remaining input.new)) }
    ensures again { IfErr result (λ e. error_kind e ≢ ErrorKind.Interrupted) }
{
    for _ in 0..u64::MAX {
        match input.read(piece) {
            Ok(n) => return Ok(n),
            Err(e) => {
                if e.kind() != ErrorKind::Interrupted {
                    return Err(e);
                }
            }
        }
    }
    Err(ErrorKind::Other.into())
}

/// Answers the lines of an input until it ends. Answers go out before the next piece is read, so that whoever waits for one has it.
/// An error ends it. It is the reader's or the writer's, or made here: `WriteZero` where a write takes no byte, `Other` after 2^64 - 1
/// turns. The answers to all lines that had ended before the last 8,192 bytes read have then been written, and a front of the others'. An
/// interrupted read, write or flush is tried again. The other clauses are facts about the definitions used here: no lines have two
/// transcripts, and every input falls into lines in one way.
pub fn serve<B: Reusable, R: Read, W: Write>(
    book: &mut B,
    input: &mut R,
    output: &mut W,
) -> io::Result<()>
    ensures served { OnOk result (Served (R.remaining input.old) (R.remaining input.new) (W.contents output.old) (W.contents output.new) (B.meaning book.old) (B.meaning book.new)) }
    ensures failed { OnErr result (ServedInPart (R.remaining input.old) (R.remaining input.new) (W.contents output.old) (W.contents output.new) (B.meaning book.old) (B.meaning book.new)) }
    ensures again { IfErr result (λ e. error_kind e ≢ ErrorKind.Interrupted) }
    ensures once { OneTranscript }
    ensures lines { SplitLines }
    ensures split { AllSplit }
{
    let mut session = Session::new();
    let mut piece = [0; PIECE];
    for _ in 0..u64::MAX {
        let n = next_piece(input, &mut piece)?;
        if n == 0 {
            return session.finish(book, output);
        }
        session.take_piece(book, output, &piece[..n])?;
    }
    Err(ErrorKind::Other.into())
}
