// The desk.
#![tactic(auto, using(lines::proofs::Writings::one_reading))]

ghost use Rattle.std.specs.Prelude.{◌≡◌, ◌≤◌, IfErr, IfOk};
ghost use Rattle.book.specs.Ledgers.{Ledger};
ghost use Rattle.lines.specs.Spelled.{OneReading};
ghost use Rattle.desk.specs.Desks.{call_after, call_answer, desk_state, waiting};
ghost use Rattle.desk.specs.Responses.{LineAnswered, RefusedStays, Responded};

use answers::faults::LineFault;
use answers::writing::{ROOM, write_answer};
use book::books::Reusable;
use book::days::Day;
use book::lawful::LawfulDay;
use calls::call::{Call, Reply};
use calls::performing::perform;
use house::houses::House;
use ladders::sets::EvenSet;
use lines::line_calls::LineCall;
use lines::parsing::parse;

/// What answers the lines of one day. No house stands before a day line. The desk has no book: one is lent with each line, and the
/// day line begins it anew.
#[derive(Drop)]
pub struct Desk {
    house: Option<House<EvenSet>>,
}

impl Desk {
    /// A desk before any day line.
    pub fn new() -> Desk
        ensures { (m : Ledger) → desk_state result m ≡ waiting m }
    {
        Desk { house: None }
    }

    // Begins the day, with a new house and an empty book.
    fn begin<B: Reusable>(
        &mut self,
        book: &mut B,
        day: Day,
        ticks: &[i64],
    ) -> Result<Reply, LineFault>
        ensures answer { result ≡ call_answer (desk_state self.old (B.meaning book.old)) (LineCall.Day day ticks.now) }
        ensures after { desk_state self.new (B.meaning book.new) ≡ call_after (desk_state self.old (B.meaning book.old)) (LineCall.Day day ticks.now) }
    {
        if self.house.is_some() {
            return Err(LineFault::SecondDay);
        }
        let day = LawfulDay::new(day)?;
        let set = EvenSet::new(ticks)?;
        book.begin(day);
        self.house = Some(House::new(set));
        Ok(Reply::Done)
    }

    // Hands a call to the house, if there is one.
    fn hand<B: Reusable>(&mut self, book: &mut B, call: &Call) -> Result<Reply, LineFault>
        ensures answer { result ≡ call_answer (desk_state self.old (B.meaning book.old)) (LineCall.Call call.now) }
        ensures after { desk_state self.new (B.meaning book.new) ≡ call_after (desk_state self.old (B.meaning book.old)) (LineCall.Call call.now) }
    {
        let Some(house) = self.house.as_mut() else {
            return Err(LineFault::NoDay);
        };
        Ok(perform(house, book, call)?)
    }

    /// Makes a call, or refuses it and changes nothing. The fault tells why: no day line yet, a further one, or what the day record,
    /// the ladders or the house refuse.
    pub fn call<B: Reusable>(&mut self, book: &mut B, call: LineCall) -> Result<Reply, LineFault>
        ensures answer { result ≡ call_answer (desk_state self.old (B.meaning book.old)) call }
        ensures after { desk_state self.new (B.meaning book.new) ≡ call_after (desk_state self.old (B.meaning book.old)) call }
        ensures refused { let before = desk_state self.old (B.meaning book.old) in
            IfErr result (λ _. desk_state self.new (B.meaning book.new) ≡ before) }
    {
        match call {
            LineCall::Day { day, ticks } => self.begin(book, day, &ticks),
            LineCall::Call(call) => self.hand(book, &call),
        }
    }

    // Reads a line and makes its call.
    fn answer_line<B: Reusable>(&mut self, book: &mut B, line: &[u8]) -> Result<Reply, LineFault>
        ensures answered { let before = desk_state self.old (B.meaning book.old) in
            LineAnswered line.now before result (desk_state self.new (B.meaning book.new)) }
        ensures refused { let before = desk_state self.old (B.meaning book.old) in
            IfErr result (λ _. desk_state self.new (B.meaning book.new) ≡ before) }
    {
        let call = parse(line)?;
        self.call(book, call)
    }

    /// Answers a line: writes the answer, a refusal too, at the front of the buffer, and tells how many bytes it has. The one error is
    /// `ShortBuffer`, of a buffer under 96 bytes; it is told before the line is looked at, and nothing changes.
    pub fn respond<B: Reusable>(
        &mut self,
        book: &mut B,
        line: &[u8],
        out: &mut [u8],
    ) -> Result<usize, LineFault>
        ensures responded { let before = desk_state self.old (B.meaning book.old) in
            Responded line.now before out.old result out.new (desk_state self.new (B.meaning book.new)) }
        ensures refused { let before = desk_state self.old (B.meaning book.old) in
            RefusedStays before result out.new (desk_state self.new (B.meaning book.new)) }
        ensures short { IfOk result (λ n. n ≤ 96) }
        ensures reading { OneReading }
    {
        if out.len() < ROOM {
            return Err(LineFault::ShortBuffer);
        }
        let answer = self.answer_line(book, line);
        write_answer(&answer, out)
    }
}
