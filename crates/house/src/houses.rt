// The house.
ghost use Rattle.house.specs.ListedRoll.{roll_of};
ghost use Rattle.house.specs.Rolls.{OnLadders};

use crate::listed::Listed;
use crate::phases::Phase;
use ladders::sets::LadderSet;

/// The house has no book of its own: one is lent to each call that needs it, and the house's day is the book's. The ladder of
/// every series is one of the set's.
#[derive(Drop)]
pub struct House<L: LadderSet> {
    pub(crate) set: L,
    pub(crate) phase: Phase,
    pub(crate) listed: Listed,
    ghost laddered: { OnLadders (L.size set) (roll_of listed) },
}
