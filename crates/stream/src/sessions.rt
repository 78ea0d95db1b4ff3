// A session: the desk, with what it holds of its input and of its output.
ghost use Rattle.std.specs.Prelude.{◌≡◌, ◌≢◌, ℕ, ◌≤◌, List, length, Option, false, true, is_err, IfErr, IsErr, IsErrAnd, OnErr, OnOk};
ghost use Rattle.std.specs.IoError.{error_kind};
ghost use Rattle.book.specs.Ledgers.{Ledger};
ghost use Rattle.desk.specs.Desks.{desk_state};
ghost use Rattle.stream.specs.Held.{AfterError, AnsweredUpTo, AnswerPrinted, AnswersSent, Finished, Flushed, InputClosed, LineEnded, PieceAnswered, PieceTaken, at_first};
ghost use Rattle.stream.specs.Sessions.{has_failed, unsent_bytes, view_of};

use crate::pending::Pending;
use crate::unsent::{Unsent, flush_writer};
use answers::writing::ROOM;
use book::books::Reusable;
use desk::desks::Desk;
use memchr::memchr;
use std::io;
use std::io::{ErrorKind, Write};

const NEWLINE: u8 = b'\n';

// Answers a line, and prints the answer with a newline. Desk and unsent answers are two parameters, so that the line may lie in the
// session beside them.
fn print_answer<B: Reusable, W: Write>(
    desk: &mut Desk,
    unsent: &mut Unsent,
    book: &mut B,
    writer: &mut W,
    line: &[u8],
) -> io::Result<()>
    ensures printed { let before = desk_state desk.old (B.meaning book.old) in
        let after = desk_state desk.new (B.meaning book.new) in
        OnOk result (AnswerPrinted line.now before (W.contents writer.old) (W.contents writer.new) (unsent_bytes unsent.old) (unsent_bytes unsent.new) after) }
    ensures failed { let before = desk_state desk.old (B.meaning book.old) in
        let after = desk_state desk.new (B.meaning book.new) in
        OnErr result ((rest : List ℕ) × (length rest ≤ 4193) × AnswerPrinted line.now before (W.contents writer.old) (W.contents writer.new) (unsent_bytes unsent.old) rest after) }
    ensures again { IfErr result (λ e. error_kind e ≢ ErrorKind.Interrupted) }
{
    let mut answer = [NEWLINE; ROOM + 1];
    let n = desk.respond(book, line, &mut answer).unwrap();
    unsent.put(writer, &answer[..=n])
}

/// A desk with what it holds of an input that has not ended and of answers not written yet. An error is the writer's, or made here:
/// `WriteZero` where a write takes no byte, `Other` after 2^64 - 1 interrupted tries. After it a session answers nothing any more: some
/// of its answers may be lost, of at most 4,193 bytes.
#[derive(Drop)]
pub struct Session {
    desk: Desk,
    pending: Pending,
    unsent: Unsent,
    failed: bool,
}

impl Session {
    /// A session before any input.
    pub fn new() -> Session
        ensures first { (contents : Option (List ℕ)) (m : Ledger) → view_of result contents m ≡ at_first contents m }
        ensures working { has_failed result ≡ false }
    {
        Session {
            desk: Desk::new(),
            pending: Pending::new(),
            unsent: Unsent::new(),
            failed: false,
        }
    }

    /// Whether a call has failed: each further one is refused.
    pub fn has_failed(&self) -> bool
        ensures { result ≡ has_failed self.now }
    {
        self.failed
    }

    // The line ends with these bytes, and is answered. One that stands whole in the piece is not copied.
    fn end_line<B: Reusable, W: Write>(
        &mut self,
        book: &mut B,
        writer: &mut W,
        bytes: &[u8],
    ) -> io::Result<()>
        ensures ended { let before = view_of self.old (W.contents writer.old) (B.meaning book.old) in
            let after = view_of self.new (W.contents writer.new) (B.meaning book.new) in
            OnOk result (LineEnded before bytes.now after) }
        ensures failed { let before = view_of self.old (W.contents writer.old) (B.meaning book.old) in
            let after = view_of self.new (W.contents writer.new) (B.meaning book.new) in
            OnErr result (AfterError after (LineEnded before bytes.now)) }
        ensures again { IfErr result (λ e. error_kind e ≢ ErrorKind.Interrupted) }
    {
        if self.pending.line().is_empty() {
            return print_answer(&mut self.desk, &mut self.unsent, book, writer, bytes);
        }
        self.pending.push(bytes);
        let line = self.pending.line();
        print_answer(&mut self.desk, &mut self.unsent, book, writer, line)?;
        self.pending.clear();
        Ok(())
    }

    // Goes through a piece of the input, however it was cut, and answers the lines that end in it.
    fn answer_piece<B: Reusable, W: Write>(
        &mut self,
        book: &mut B,
        writer: &mut W,
        piece: &[u8],
    ) -> io::Result<()>
        ensures answered { let before = view_of self.old (W.contents writer.old) (B.meaning book.old) in
            let after = view_of self.new (W.contents writer.new) (B.meaning book.new) in
            OnOk result (PieceAnswered before piece.now after) }
        ensures failed { let before = view_of self.old (W.contents writer.old) (B.meaning book.old) in
            let after = view_of self.new (W.contents writer.new) (B.meaning book.new) in
            OnErr result ((rest : List ℕ) × AfterError after (AnsweredUpTo before piece.now rest)) }
        ensures again { IfErr result (λ e. error_kind e ≢ ErrorKind.Interrupted) }
    {
        let mut rest = piece;
        while let Some(end) = memchr(NEWLINE, rest) {
            self.end_line(book, writer, &rest[..end])?;
            rest = &rest[end + 1..];
        }
        self.pending.push(rest);
        Ok(())
    }

    // Answers what follows the last newline, if anything does.
    fn close<B: Reusable, W: Write>(&mut self, book: &mut B, writer: &mut W) -> io::Result<()>
        ensures closed { let before = view_of self.old (W.contents writer.old) (B.meaning book.old) in
            let after = view_of self.new (W.contents writer.new) (B.meaning book.new) in
            OnOk result (InputClosed before after) }
        ensures failed { let before = view_of self.old (W.contents writer.old) (B.meaning book.old) in
            let after = view_of self.new (W.contents writer.new) (B.meaning book.new) in
            OnErr result (AfterError after (InputClosed before)) }
        ensures again { IfErr result (λ e. error_kind e ≢ ErrorKind.Interrupted) }
    {
        if self.pending.line().is_empty() {
            return Ok(());
        }
        self.end_line(book, writer, &[])
    }

    // Hands to the writer all that was printed, and asks it to pass it on.
    fn send<W: Write>(&mut self, writer: &mut W) -> io::Result<()>
        ensures flushed { OnOk result ((m : Ledger) →
            Flushed (view_of self.old (W.contents writer.old) m) (view_of self.new (W.contents writer.new) m)) }
        ensures failed { OnErr result ((m : Ledger) →
            AfterError (view_of self.new (W.contents writer.new) m) (AnswersSent (view_of self.old (W.contents writer.old) m))) }
        ensures again { IfErr result (λ e. error_kind e ≢ ErrorKind.Interrupted) }
    {
        self.unsent.send(writer)?;
        flush_writer(writer)
    }

    // Answers a piece and lets no answer wait.
    fn answer_and_send<B: Reusable, W: Write>(
        &mut self,
        book: &mut B,
        writer: &mut W,
        piece: &[u8],
    ) -> io::Result<()>
        ensures taken { let before = view_of self.old (W.contents writer.old) (B.meaning book.old) in
            let after = view_of self.new (W.contents writer.new) (B.meaning book.new) in
            OnOk result (PieceTaken before piece.now after) }
        ensures failed { let before = view_of self.old (W.contents writer.old) (B.meaning book.old) in
            let after = view_of self.new (W.contents writer.new) (B.meaning book.new) in
            OnErr result ((rest : List ℕ) × AfterError after (AnsweredUpTo before piece.now rest)) }
        ensures again { IfErr result (λ e. error_kind e ≢ ErrorKind.Interrupted) }
    {
        self.answer_piece(book, writer, piece)?;
        self.send(writer)
    }

    // Answers the last line and lets no answer wait.
    fn close_and_send<B: Reusable, W: Write>(
        &mut self,
        book: &mut B,
        writer: &mut W,
    ) -> io::Result<()>
        ensures finished { let before = view_of self.old (W.contents writer.old) (B.meaning book.old) in
            let after = view_of self.new (W.contents writer.new) (B.meaning book.new) in
            OnOk result (Finished before after) }
        ensures failed { let before = view_of self.old (W.contents writer.old) (B.meaning book.old) in
            let after = view_of self.new (W.contents writer.new) (B.meaning book.new) in
            OnErr result (AfterError after (InputClosed before)) }
        ensures again { IfErr result (λ e. error_kind e ≢ ErrorKind.Interrupted) }
    {
        self.close(book, writer)?;
        self.send(writer)
    }

    // A session that has failed takes no further call.
    fn check(&self) -> io::Result<()>
        ensures refused { is_err result ≡ has_failed self.now }
        ensures kind { IfErr result (λ e. error_kind e ≡ ErrorKind.Other) }
    {
        if self.failed {
            return Err(ErrorKind::Other.into());
        }
        Ok(())
    }

    /// Hands to the writer all that was printed, and asks it to pass it on. An error ends the session: from then on each call is refused
    /// with `Other`, and nothing changes.
    pub fn flush<W: Write>(&mut self, writer: &mut W) -> io::Result<()>
        ensures flushed { OnOk result ((m : Ledger) →
            Flushed (view_of self.old (W.contents writer.old) m) (view_of self.new (W.contents writer.new) m)) }
        ensures failed { has_failed self.old ≡ false → OnErr result ((m : Ledger) →
            AfterError (view_of self.new (W.contents writer.new) m) (AnswersSent (view_of self.old (W.contents writer.old) m))) }
        ensures again { IfErr result (λ e. error_kind e ≢ ErrorKind.Interrupted) }
        ensures ends { has_failed self.new ≡ is_err result }
        ensures refused { has_failed self.old ≡ true → IsErrAnd result (λ e. error_kind e ≡ ErrorKind.Other) }
        ensures unchanged { has_failed self.old ≡ true → (m : Ledger) →
            view_of self.new (W.contents writer.new) m ≡ view_of self.old (W.contents writer.old) m }
    {
        self.check()?;
        let flushed = self.send(writer);
        self.failed = flushed.is_err();
        flushed
    }

    /// Takes a piece of the input and lets no answer wait: whoever gave the piece has the answers before the next one is asked for. An
    /// error ends the session: the lines that ended in a front of the piece have been answered, and the writer has a front of the
    /// answers. From then on each call is refused with `Other`, and nothing changes.
    pub fn take_piece<B: Reusable, W: Write>(
        &mut self,
        book: &mut B,
        writer: &mut W,
        piece: &[u8],
    ) -> io::Result<()>
        ensures taken { let before = view_of self.old (W.contents writer.old) (B.meaning book.old) in
            let after = view_of self.new (W.contents writer.new) (B.meaning book.new) in
            OnOk result (PieceTaken before piece.now after) }
        ensures failed { let before = view_of self.old (W.contents writer.old) (B.meaning book.old) in
            let after = view_of self.new (W.contents writer.new) (B.meaning book.new) in
            has_failed self.old ≡ false → OnErr result ((rest : List ℕ) × AfterError after (AnsweredUpTo before piece.now rest)) }
        ensures again { IfErr result (λ e. error_kind e ≢ ErrorKind.Interrupted) }
        ensures ends { has_failed self.new ≡ is_err result }
        ensures refused { has_failed self.old ≡ true → IsErrAnd result (λ e. error_kind e ≡ ErrorKind.Other) }
        ensures unchanged { let before = view_of self.old (W.contents writer.old) (B.meaning book.old) in
            has_failed self.old ≡ true → view_of self.new (W.contents writer.new) (B.meaning book.new) ≡ before }
    {
        self.check()?;
        let taken = self.answer_and_send(book, writer, piece);
        self.failed = taken.is_err();
        taken
    }

    /// Answers what follows the last newline, if anything does: the input has ended. An error ends the session: the line has been
    /// answered, and the writer has a front of the answers. From then on each call is refused with `Other`, and nothing changes.
    pub fn finish<B: Reusable, W: Write>(&mut self, book: &mut B, writer: &mut W) -> io::Result<()>
        ensures finished { let before = view_of self.old (W.contents writer.old) (B.meaning book.old) in
            let after = view_of self.new (W.contents writer.new) (B.meaning book.new) in
            OnOk result (Finished before after) }
        ensures failed { let before = view_of self.old (W.contents writer.old) (B.meaning book.old) in
            let after = view_of self.new (W.contents writer.new) (B.meaning book.new) in
            has_failed self.old ≡ false → OnErr result (AfterError after (InputClosed before)) }
        ensures again { IfErr result (λ e. error_kind e ≢ ErrorKind.Interrupted) }
        ensures ends { has_failed self.new ≡ is_err result }
        ensures refused { has_failed self.old ≡ true → IsErrAnd result (λ e. error_kind e ≡ ErrorKind.Other) }
        ensures unchanged { let before = view_of self.old (W.contents writer.old) (B.meaning book.old) in
            has_failed self.old ≡ true → view_of self.new (W.contents writer.new) (B.meaning book.new) ≡ before }
    {
        self.check()?;
        let finished = self.close_and_send(book, writer);
        self.failed = finished.is_err();
        finished
    }
}
