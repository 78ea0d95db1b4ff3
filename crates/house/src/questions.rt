// The question for a price.
ghost use Rattle.std.specs.Prelude.{◌≡◌, unsigned_abs};
ghost use Rattle.house.specs.Answers.{answer_at};
ghost use Rattle.house.specs.ByPath.{ByPath};
ghost use Rattle.house.specs.Houses.{set_of, state};
ghost use Rattle.house.specs.Meaning.{Explained, OneAnswer};
ghost use Rattle.house.specs.Questions.{is_open, settle_answer};
ghost use Rattle.house.specs.Reach.{AnswerInReach};

use crate::answers::Settlement;
use crate::faults::HouseFault;
use crate::houses::House;
use crate::phases::Phase;
use crate::settling::{Answer, Question};
use book::books::Book;
use ladders::sets::LadderSet;
use rows::places::Edition;

// Whether prices of the edition may be asked for.
fn is_open(phase: Phase, edition: Edition) -> bool
    ensures { result ≡ is_open phase edition }
{
    matches!(
        (phase, edition),
        (Phase::Trading, Edition::Morning) | (Phase::Closed, _)
    )
}

impl<L: LadderSet> House<L> {
    // The answer for a series, by way of its reference, which is an earlier series.
    fn answer<B: Book>(&self, book: &B, number: u8, edition: Edition) -> Answer
        ensures value { result ≡ answer_at (L.lawful (set_of self.now)) edition (state self.now) (B.meaning book.now) number }
        ensures reach { AnswerInReach number result }
    {
        let series = self.listed.get(number);
        // No `map`: the call in a closure would have no measure.
        let reference = match series.terms.reference {
            Some(earlier) => Some(self.answer(book, earlier, edition)),
            None => None,
        };
        let question = Question {
            set: &self.set,
            book,
            number,
            series,
            edition,
            reference,
        };
        question.answer()
    }

    // The answer to the question, or the refusal that comes before it. Apart from `settle`, whose clauses `path`, `meaning` and
    // `reach` rest on this one, so that a fault in the answer is told here. Series and edition stay two parameters, as they are
    // two words of a line.
    fn answer_to<B: Book>(
        &self,
        book: &B,
        series: i64,
        edition: Edition,
    ) -> Result<Settlement, HouseFault>
        ensures value { result ≡ settle_answer (L.lawful (set_of self.now)) edition series (state self.now) (B.meaning book.now) }
        ensures reach { AnswerInReach (unsigned_abs series) result }
    {
        if !is_open(self.phase, edition) {
            return Err(HouseFault::WrongPhase);
        }
        let number = self.listed.find(series)?;
        self.answer(book, number, edition)
            .map_err(HouseFault::NoPrice)
    }

    /// The settlement price of a series in an edition. Refused while the edition is not open with `WrongPhase`, for a series that is
    /// not listed with `NoSuchSeries`, and with `NoPrice` and the origin where no step finds a price. House and book are only read.
    pub fn settle<B: Book>(
        &self,
        book: &B,
        series: i64,
        edition: Edition,
    ) -> Result<Settlement, HouseFault>
        ensures answer { result ≡ settle_answer (L.lawful (set_of self.now)) edition series (state self.now) (B.meaning book.now) }
        ensures path { ByPath (L.lawful (set_of self.now)) edition (state self.now) (B.meaning book.now) series result }
        ensures meaning { Explained (L.lawful (set_of self.now)) edition (state self.now) (B.meaning book.now) series result }
        ensures one { OneAnswer }
        ensures reach { AnswerInReach (unsigned_abs series) result }
    {
        self.answer_to(book, series, edition)
    }
}
