// Two runs, whatever the makes of the ladder sets and of the books, and the same question asked after each.
ghost use Rattle.std.specs.Prelude.{◌≡◌, ℕ, min, length};
ghost use Rattle.book.specs.declared.days.Day.{Day};
ghost use Rattle.house.specs.Houses.{set_of};
ghost use Rattle.calls.specs.Worlds.{new_world, world};
ghost use Rattle.runs.specs.ByCalls.{entries};
ghost use Rattle.runs.specs.Laws.{Alike, Comparable, EndTold, Laws, answer_in, calls_taken_in, end_memory, end_world, new_run, run_in};
ghost use Rattle.runs.specs.Stored.{filled};
ghost use Rattle.runs.specs.Times.{AnswerTimed};

use crate::running::run;
use board::boards::Board;
use book::books::Book;
use book::entries::Entry;
use book::lawful::LawfulDay;
use calls::call::Call;
use house::answers::Settlement;
use house::faults::HouseFault;
use house::houses::House;
use ladders::sets::LadderSet;
use rows::places::Edition;
use tape::tapes::Tape;

/// A run: a house, a book, and the calls to be made on them. Of a run handed over, a clause has the house as `exit.0` and the
/// book as `exit.1.0`, where it tells what they hold at the return.
pub struct Run<'a, L: LadderSet, B> {
    /// The house on which the calls are made.
    pub house: &'a mut House<L>,
    /// The book that is lent to the house with each call.
    pub book: &'a mut B,
    /// The calls, in the order in which they are made.
    pub calls: &'a [Call],
}

impl<L: LadderSet, B: Book> Run<'_, L, B> {
    // Makes the calls, and then asks.
    fn make_and_ask(self, series: i64, edition: Edition) -> Result<Settlement, HouseFault>
        ensures answer { result ≡ answer_in (run_in L.size L.lawful B.meaning self.entry) series edition }
        ensures after { world self.exit.0.now (B.meaning self.exit.1.0.now)
            ≡ end_world (run_in L.size L.lawful B.meaning self.entry) }
        ensures memory { B.memory self.exit.1.0.now
            ≡ end_memory B.with_stored (run_in L.size L.lawful B.meaning self.entry) (B.memory self.entry.book.now) }
        ensures set { set_of self.exit.0.now ≡ set_of self.entry.house.now }
    {
        let Run { house, book, calls } = self;
        run(house, book, calls);
        house.settle(book, series, edition)
    }
}

/// What the houses of two runs answer, the first run's first.
pub type Outcomes = (
    Result<Settlement, HouseFault>,
    Result<Settlement, HouseFault>,
);

// Both runs, and the question after each. Apart from `compare`, whose laws rest on this, so that a fault in a run is told here.
// Series and edition stay two parameters, as they are two words of a line.
fn ask_both<K: LadderSet, J: Book, L: LadderSet, B: Book>(
    first: Run<'_, K, J>,
    second: Run<'_, L, B>,
    series: i64,
    edition: Edition,
) -> Outcomes
    ensures one { result.0 ≡ answer_in (run_in K.size K.lawful J.meaning first.entry) series edition }
    ensures other { result.1 ≡ answer_in (run_in L.size L.lawful B.meaning second.entry) series edition }
    ensures first_after { world first.exit.0.now (J.meaning first.exit.1.0.now)
        ≡ end_world (run_in K.size K.lawful J.meaning first.entry) }
    ensures second_after { world second.exit.0.now (B.meaning second.exit.1.0.now)
        ≡ end_world (run_in L.size L.lawful B.meaning second.entry) }
    ensures first_memory { J.memory first.exit.1.0.now
        ≡ end_memory J.with_stored (run_in K.size K.lawful J.meaning first.entry) (J.memory first.entry.book.now) }
    ensures second_memory { B.memory second.exit.1.0.now
        ≡ end_memory B.with_stored (run_in L.size L.lawful B.meaning second.entry) (B.memory second.entry.book.now) }
    ensures first_set { set_of first.exit.0.now ≡ set_of first.entry.house.now }
    ensures second_set { set_of second.exit.0.now ≡ set_of second.entry.house.now }
{
    let one = first.make_and_ask(series, edition);
    let other = second.make_and_ask(series, edition);
    (one, other)
}

/// Performs two runs and asks both the same. Each house and each book then hold what they have at the end of its run, each ladder
/// set is as it was, and memory that was lent to a book has the entries taken stored in it. What stands in the end of a run from
/// a new house and an empty book is told by the calls taken.
///
/// If the runs can be compared (`Comparable`: new houses on empty books of one day, ladder sets of one meaning, and in both, by the
/// calls taken, the series listed and the edition open), then
/// - the same evidence on the series' path gives the same answer, its time too;
/// - if only prices differ there, and none is lower in the second run, both settle on the same step, place and time, the second at
///   no lower a price, or both are refused from the same origin;
/// - if only trades, auctions or spreads were added there, what settled settles, at the same place or an earlier one.
///
/// In a run from a new house and an empty book the time of an answer is the stamp of the entry that stands last among those that the
/// step which decided looks for; along a copy it is that of the reference's answer, and other steps have none (`AnswerTimed`).
///
/// An error in an answer is the fault for which that run's house refuses the question: the edition is not open, the series is
/// not listed, or no step finds a price.
pub fn compare<K: LadderSet, J: Book, L: LadderSet, B: Book>(
    first: Run<'_, K, J>,
    second: Run<'_, L, B>,
    series: i64,
    edition: Edition,
) -> Outcomes
    ensures laws { let first_run = run_in K.size K.lawful J.meaning first.entry in
        let second_run = run_in L.size L.lawful B.meaning second.entry in
        Laws Comparable first_run second_run series edition result.0 result.1 }
    ensures told { let first_run = run_in K.size K.lawful J.meaning first.entry in
        let second_run = run_in L.size L.lawful B.meaning second.entry in
        (d : Day) (k : ℕ) → (first_run.start ≡ new_world d k → EndTold d k first_run)
        × (second_run.start ≡ new_world d k → EndTold d k second_run) }
    ensures times { let first_run = run_in K.size K.lawful J.meaning first.entry in
        let second_run = run_in L.size L.lawful B.meaning second.entry in
        (d : Day) (k : ℕ) → (first_run.start ≡ new_world d k → AnswerTimed d first_run series edition result.0)
        × (second_run.start ≡ new_world d k → AnswerTimed d second_run series edition result.1) }
    ensures first_after { world first.exit.0.now (J.meaning first.exit.1.0.now)
        ≡ end_world (run_in K.size K.lawful J.meaning first.entry) }
    ensures second_after { world second.exit.0.now (B.meaning second.exit.1.0.now)
        ≡ end_world (run_in L.size L.lawful B.meaning second.entry) }
    ensures first_memory { J.memory first.exit.1.0.now
        ≡ end_memory J.with_stored (run_in K.size K.lawful J.meaning first.entry) (J.memory first.entry.book.now) }
    ensures second_memory { B.memory second.exit.1.0.now
        ≡ end_memory B.with_stored (run_in L.size L.lawful B.meaning second.entry) (B.memory second.entry.book.now) }
    ensures first_set { set_of first.exit.0.now ≡ set_of first.entry.house.now }
    ensures second_set { set_of second.exit.0.now ≡ set_of second.entry.house.now }
{
    ask_both(first, second, series, edition)
}

/// The same, of runs that this call begins itself: one on a board of the capacity stated, one on a tape in the places lent.
/// So nothing is asked of the beginning, and only that the ladder sets have one meaning. The places then hold the entries taken in
/// the second run, in their order, and after them what stood there. What each run is made of stands apart, since the two makes need
/// different things. The errors are those of `compare`.
pub fn compare_makes<K: LadderSet + Drop, L: LadderSet + Drop>(
    day: LawfulDay,
    set: K,
    capacity: usize,
    calls: &[Call],
    other_set: L,
    slots: &mut [Entry],
    other_calls: &[Call],
    series: i64,
    edition: Edition,
) -> Outcomes
    ensures laws { let first_run = new_run K.size K.lawful set day (min capacity 30000) calls.now in
        let second_run = new_run L.size L.lawful other_set day (min (length slots.old) 30000) other_calls.now in
        Laws Alike first_run second_run series edition result.0 result.1 }
    ensures told { let places = min (length slots.old) 30000 in
        EndTold day (min capacity 30000) (new_run K.size K.lawful set day (min capacity 30000) calls.now)
        × EndTold day places (new_run L.size L.lawful other_set day places other_calls.now) }
    ensures times { let places = min (length slots.old) 30000 in
        AnswerTimed day (new_run K.size K.lawful set day (min capacity 30000) calls.now) series edition result.0
        × AnswerTimed day (new_run L.size L.lawful other_set day places other_calls.now) series edition result.1 }
    ensures slots { let second_run = new_run L.size L.lawful other_set day (min (length slots.old) 30000) other_calls.now in
        slots.new ≡ filled (entries (calls_taken_in second_run)) slots.old }
{
    let mut house = House::new(set);
    let mut board = Board::new(day, capacity);
    let mut other_house = House::new(other_set);
    let mut tape = Tape::new(day, slots);
    let first = Run {
        house: &mut house,
        book: &mut board,
        calls,
    };
    let second = Run {
        house: &mut other_house,
        book: &mut tape,
        calls: other_calls,
    };
    compare(first, second, series, edition)
}
