// Laws of every set of ladders, each on a call that performs what it speaks of.
ghost use Rattle.std.specs.Prelude.{◌≡◌};
ghost use Rattle.ladders.specs.Laws.{Same, NotOver, NoLower};
ghost use Rattle.ladders.specs.Rounded.{rounded};

use crate::rounding::{Rounded, round};
use crate::sets::LadderSet;

// Each fraction rounded on its own set: apart from `round_two`, so that a wrong pair fails here, at its clause, and not in
// the proofs of the laws.
fn both<S: LadderSet, R: LadderSet>(
    first: &S,
    second: &R,
    ladder: u8,
    x: (i64, u32),
    y: (i64, u32),
) -> (Option<Rounded>, Option<Rounded>)
    ensures one { result.0 ≡ rounded (S.LadderSet.lawful first.now ladder) x.0 x.1 }
    ensures other { result.1 ≡ rounded (R.LadderSet.lawful second.now ladder) y.0 y.1 }
{
    (round(first, ladder, x), round(second, ladder, y))
}

/// Two fractions of points, each rounded on the ladder of one number in a set of its own, whatever the makes of the two. With the same
/// lawful prices, no answer falls when the fraction rises, and the same fraction has the same answer.
pub fn round_two<S: LadderSet, R: LadderSet>(
    first: &S,
    second: &R,
    ladder: u8,
    x: (i64, u32),
    y: (i64, u32),
) -> (Option<Rounded>, Option<Rounded>)
    ensures one { result.0 ≡ rounded (S.LadderSet.lawful first.now ladder) x.0 x.1 }
    ensures other { result.1 ≡ rounded (R.LadderSet.lawful second.now ladder) y.0 y.1 }
    ensures rises { Same (S.LadderSet.lawful first.now ladder) (R.LadderSet.lawful second.now ladder) → NotOver x.0 x.1 y.0 y.1 → NoLower result.0 result.1 }
    ensures alike { Same (S.LadderSet.lawful first.now ladder) (R.LadderSet.lawful second.now ladder) → x ≡ y → result.0 ≡ result.1 }
{
    both(first, second, ladder, x, y)
}
