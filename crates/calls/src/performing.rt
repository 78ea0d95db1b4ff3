// One call made on a house and its book.
ghost use Rattle.std.specs.Prelude.{◌≡◌, OnErr};
ghost use Rattle.house.specs.Houses.{set_of};
ghost use Rattle.calls.specs.Worlds.{after_call, memory_after_call, reply, world};

use crate::call::{Call, Reply};
use book::books::Book;
use house::faults::HouseFault;
use house::houses::House;
use ladders::sets::LadderSet;

/// Makes one call. House and book are two parameters, as for the house's own calls: the book is lent to each.
///
/// An error is the fault for which the house refuses the call (RULES.md has their order); house and book are then as they were.
pub fn perform<L: LadderSet, B: Book>(
    house: &mut House<L>,
    book: &mut B,
    call: &Call,
) -> Result<Reply, HouseFault>
    ensures answer { let before = world house.old (B.meaning book.old) in
        result ≡ reply (L.size (set_of house.old)) (L.lawful (set_of house.old)) call.now before }
    ensures after { let before = world house.old (B.meaning book.old) in
        world house.new (B.meaning book.new)
        ≡ after_call (L.size (set_of house.old)) (L.lawful (set_of house.old)) call.now before }
    ensures set { set_of house.new ≡ set_of house.old }
    ensures memory { let before = world house.old (B.meaning book.old) in
        B.memory book.new ≡ memory_after_call B.with_stored (L.lawful (set_of house.old)) call.now before (B.memory book.old) }
    ensures refused { OnErr result (world house.new (B.meaning book.new) ≡ world house.old (B.meaning book.old)) }
{
    // A match, and no table of functions: the calls are closed, and have different parts.
    match *call {
        Call::List(listing) => house.list(listing).map(Reply::Listed),
        Call::Ring(bell) => house.ring(bell).map(|()| Reply::Done),
        Call::Enter(entry) => house.enter(book, entry).map(|()| Reply::Done),
        Call::SetTheory { series, value } => {
            house.set_theory(series, value).map(|()| Reply::Done)
        }
        Call::SetRuling {
            series,
            value,
            first,
        } => house.set_ruling(series, value, first).map(|()| Reply::Done),
        Call::Settle { series, edition } => {
            let settlement = house.settle(book, series, edition)?;
            Ok(Reply::Settled { series, settlement })
        }
    }
}
