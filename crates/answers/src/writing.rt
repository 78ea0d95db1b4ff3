// Answers as bytes, written into a buffer that the caller lends.
#![tactic(auto, using(crate::proofs::Adding::replied))]

ghost use Rattle.std.specs.Prelude.{◌≡◌, ◌+◌, ◌≤◌, ◌∷◌, length, IfOk, OnOk};
ghost use Rattle.answers.specs.Texts.{answer_text, AllOneLine, Longest, OneLine, TextsApart};
ghost use Rattle.answers.specs.Written.{PutAt, Begins, Replied};
ghost use Rattle.lines.specs.Values.{signed_if};

use crate::faults::LineFault;
use calls::call::Reply;
use house::answers::Settlement;
use itoa::{Buffer, Integer};

/// A buffer of so many bytes has room for every answer.
pub const ROOM: usize = 96;

/// How many bytes an answer may need. Its clauses are the laws of the answers' texts: none is longer, none has a newline, and
/// no two answers share one.
#[tactic(auto, using(crate::proofs::Apart::laws))]
pub fn room() -> usize
    ensures value { result ≡ 96 }
    ensures longest { Longest result }
    ensures one_line { AllOneLine }
    ensures apart { TextsApart }
{
    ROOM
}

// Copies the bytes to a place of the buffer, and tells where they end.
fn put(out: &mut [u8], at: usize, bytes: &[u8]) -> usize
    requires { at + length bytes.now ≤ length out.old }
    ensures { PutAt out.old at bytes.now out.new result }
{
    let end = at + bytes.len();
    out[at..end].copy_from_slice(bytes);
    end
}

// The same of a field that is not the first: a space goes before it.
fn put_field(out: &mut [u8], at: usize, field: &[u8]) -> usize
    requires { at + 1 + length field.now ≤ length out.old }
    ensures { PutAt out.old at (32 ∷ field.now) out.new result }
{
    let start = put(out, at, b" ");
    put(out, start, field)
}

fn put_number<I: Integer>(out: &mut [u8], at: usize, number: I) -> usize
    requires { at + 1 + I.MAX_STR_LEN ≤ length out.old }
    ensures added { PutAt out.old at (32 ∷ I.text number) out.new result }
    ensures short { result ≤ at + 1 + I.MAX_STR_LEN }
{
    let mut buffer = Buffer::new();
    put_field(out, at, buffer.format(number).as_bytes())
}

// The stamp of the evidence that decided, or a minus alone where there is none.
fn put_time(out: &mut [u8], at: usize, time: Option<i32>) -> usize
    requires { at + 12 ≤ length out.old }
    ensures { PutAt out.old at (32 ∷ signed_if time) out.new result }
{
    match time {
        Some(stamp) => put_number(out, at, stamp),
        None => put_field(out, at, b"-"),
    }
}

#[tactic(auto, using(crate::proofs::Adding::begins_done))]
fn put_done(out: &mut [u8]) -> usize
    requires { 96 ≤ length out.old }
    ensures { Begins out.old (answer_text (Ok Reply.Done)) out.new result }
{
    put(out, 0, b"done")
}

fn put_listed(out: &mut [u8], series: u8) -> usize
    requires { 96 ≤ length out.old }
    ensures { Begins out.old (answer_text (Ok (Reply.Listed series))) out.new result }
{
    let at = put(out, 0, b"listed");
    put_number(out, at, series)
}

fn put_price(out: &mut [u8], series: i64, settlement: Settlement) -> usize
    requires { 96 ≤ length out.old }
    ensures { Begins out.old (answer_text (Ok (Reply.Settled series settlement))) out.new result }
{
    let at = put(out, 0, b"price");
    let at = put_number(out, at, series);
    let at = put_number(out, at, settlement.price);
    let at = put_field(out, at, &[settlement.step.letter()]);
    let at = put_number(out, at, settlement.place);
    put_time(out, at, settlement.time)
}

fn put_refused(out: &mut [u8], fault: LineFault) -> usize
    requires { 96 ≤ length out.old }
    ensures { Begins out.old (answer_text (Err fault)) out.new result }
{
    let at = put(out, 0, b"refused");
    let at = put_number(out, at, fault.number());
    match fault.detail() {
        Some(detail) => put_number(out, at, detail),
        None => at,
    }
}

/// Writes the answer to a line at the front of the buffer, and tells how many bytes it has. A buffer under 96 bytes is refused with
/// `ShortBuffer`, and stays as it was.
pub fn write_answer(answer: &Result<Reply, LineFault>, out: &mut [u8]) -> Result<usize, LineFault>
    ensures replied { Replied (answer_text answer.now) out.old result out.new }
    ensures short { IfOk result (λ n. n ≤ 96) }
    ensures one_line { OnOk result (OneLine (answer_text answer.now)) }
{
    if out.len() < ROOM {
        return Err(LineFault::ShortBuffer);
    }
    Ok(match *answer {
        Ok(Reply::Done) => put_done(out),
        Ok(Reply::Listed(series)) => put_listed(out, series),
        Ok(Reply::Settled { series, settlement }) => put_price(out, series, settlement),
        Err(fault) => put_refused(out, fault),
    })
}
