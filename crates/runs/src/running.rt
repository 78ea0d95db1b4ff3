// Calls made one after the other on a house and its book.
ghost use Rattle.std.specs.Prelude.{◌≡◌, ℕ};
ghost use Rattle.book.specs.declared.days.Day.{Day};
ghost use Rattle.house.specs.Houses.{set_of};
ghost use Rattle.calls.specs.Worlds.{new_world, world};
ghost use Rattle.runs.specs.ByCalls.{entries};
ghost use Rattle.runs.specs.Runs.{after_run, calls_taken};
ghost use Rattle.book.specs.Takings.{with_all_stored};
ghost use Rattle.runs.specs.Told.{Told};

use book::books::Book;
use calls::call::Call;
use calls::performing::perform;
use house::houses::House;
use ladders::sets::LadderSet;

/// Makes the calls in their order, whether or not one is refused. After a run from a new house and an empty book, what they hold
/// is told by the calls taken; and after any run memory that was lent to the book has the entries taken stored in it.
pub fn run<L: LadderSet, B: Book>(house: &mut House<L>, book: &mut B, calls: &[Call])
    ensures after { let before = world house.old (B.meaning book.old) in
        world house.new (B.meaning book.new)
        ≡ after_run (L.size (set_of house.old)) (L.lawful (set_of house.old)) calls.now before }
    ensures set { set_of house.new ≡ set_of house.old }
    ensures told { let before = world house.old (B.meaning book.old) in
        let taken = calls_taken (L.size (set_of house.old)) (L.lawful (set_of house.old)) calls.now before in
        (d : Day) (k : ℕ) → before ≡ new_world d k → Told d k taken (world house.new (B.meaning book.new)) }
    ensures memory { let before = world house.old (B.meaning book.old) in
        let taken = calls_taken (L.size (set_of house.old)) (L.lawful (set_of house.old)) calls.now before in
        B.memory book.new ≡ with_all_stored B.with_stored before.book.count (entries taken) (B.memory book.old) }
{
    for call in calls {
        let _ = perform(house, book, call);
    }
}
