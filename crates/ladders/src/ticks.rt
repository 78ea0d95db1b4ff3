// A tick, and the even ladder of its multiples.
ghost use Rattle.std.specs.Prelude.{◌≡◌, ◌≤◌, true, pos, ◌≤ℤ◌, ◌<ℤ◌, is_ok, IfOk, Decides};
ghost use Rattle.std.specs.Int.{int_rem_euclid};
ghost use Rattle.ladders.specs.Faults.{TakenUnless, tick_fault};
ghost use Rattle.ladders.specs.Multiples.{multiple};
ghost use Rattle.ladders.specs.Prices.{within};
ghost use Rattle.ladders.specs.Rounding.{Above, Below};
ghost use Rattle.ladders.specs.ToTick.{tick_is_near};

use crate::faults::LadderFault;
use crate::limits::is_within;
use crate::rungs::Ladder;

const LARGEST: u32 = 1_000_000;

/// A tick of 1 to 1,000,000 points: its multiples are lawful.
#[derive(Clone, Copy)]
pub struct Tick {
    points: u32,
    ghost lawful: { (1 ≤ points) × (points ≤ 1000000) },
}

impl Tick {
    ghost use Rattle.ladders.specs.Lawful.{LawfulTick};
    ghost use Rattle.ladders.specs.LawfulPrices.{PricesByTick};
    ghost use Rattle.ladders.specs.Made.{points_of};

    /// A tick of 1 to 1,000,000 points; of any other number the error is `TickOutOfRange`.
    pub fn new(points: i64) -> Result<Tick, LadderFault>
        ensures lawful { Decides (is_ok result) (LawfulTick points) }
        ensures made { TakenUnless (tick_fault points) (λ t. pos (points_of t) ≡ points) result }
        ensures prices { IfOk result (λ t. PricesByTick points (⟦<Tick as Ladder>⟧.holds t)) }
    {
        match u32::try_from(points) {
            Ok(points @ 1..=LARGEST) => Ok(Tick { points }),
            _ => Err(LadderFault::TickOutOfRange),
        }
    }

    /// Whether v, in points, is a multiple of the tick.
    pub fn divides(self, v: i64) -> bool
        ensures { result ≡ multiple (points_of self) v }
    {
        v.unsigned_abs() % u64::from(self.points) == 0
    }

    // What v has over the multiple below it, from 0 on, for negative numbers too.
    fn rest(self, v: i64) -> i64
        ensures value { result ≡ int_rem_euclid v (pos self.points) }
        ensures range { (pos 0 ≤ℤ result) × (result <ℤ pos self.points) }
    {
        v.rem_euclid(i64::from(self.points))
    }

    fn up(self, v: i64) -> i64
        requires { within v ≡ true }
        ensures { Above (multiple self.points) v result }
    {
        v + self.rest(-v)
    }

    fn down(self, v: i64) -> i64
        requires { within v ≡ true }
        ensures { Below (multiple self.points) v result }
    {
        v - self.rest(v)
    }
}

impl Ladder for Tick {
    ghost holds = { λ t. multiple t.points };

    ghost dense = { λ t z. tick_is_near t.points t.lawful.0 t.lawful.1 z };

    fn above(&self, v: i64) -> Option<i64> {
        is_within(v).then(|| self.up(v))
    }

    fn below(&self, v: i64) -> Option<i64> {
        is_within(v).then(|| self.down(v))
    }
}
