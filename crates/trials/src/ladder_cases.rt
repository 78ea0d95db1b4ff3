// Examples: the worked roundings, the ends of the range of ticks at both limits, and two makes with the same lawful prices.
use house::worked::{Way, WorkedPrice, worked_prices};
use ladders::bands::Band;
use ladders::laws::round_two;
use ladders::rounding::{Rounded, nearest, round};
use ladders::rungs::Ladder;
use ladders::sets::{EvenSet, LadderSet, SteppedSet};
use std::test::Fail;

fn three(below: i64, nearest: i64, above: i64) -> Option<Rounded> {
    Some(Rounded {
        below,
        nearest,
        above,
    })
}

#[test]
fn worked_roundings_come_out(rt: HostRuntime) -> Result<(), Fail> {
    for worked in worked_prices() {
        if let WorkedPrice::Rounding {
            tick,
            way,
            fraction,
            price,
        } = worked
        {
            let set = EvenSet::new(&[i64::from(tick)])?;
            let found = round(&set, 0, fraction).ok_or("nothing found")?;
            match way {
                Way::Nearest => assert_eq!(rt; found.nearest, price),
                Way::Above => assert_eq!(rt; found.above, price),
            }
        }
    }
    Ok(())
}

#[test]
fn limits_hold(rt: HostRuntime) -> Result<(), Fail> {
    let set = EvenSet::new(&[1, 1_000_000, 7])?;
    assert_eq!(rt; set.count(), 3);
    assert_eq!(rt; set.above(0, 1_000_000_000), Some(1_000_000_000));
    assert_eq!(rt; set.below(1, -1_000_000_000), Some(-1_000_000_000));
    assert_eq!(rt; set.above(1, -999_999_999), Some(-999_000_000));
    assert_eq!(rt; set.above(2, 1_000_000_000), Some(1_000_000_001));
    assert_eq!(rt; set.below(2, -1_000_000_000), Some(-1_000_000_001));
    assert_eq!(rt; set.above(3, 5), Some(5));
    assert_eq!(rt; set.above(3, 1_000_000_001), None);
    assert_eq!(rt; nearest(&set, 2, (0, 0)), None);
    assert_eq!(rt;
        nearest(&set, 2, (-3_000_000_000_000_000_000, 3_000_000_000)),
        Some(-1_000_000_001)
    );
    Ok(())
}

// An even and a stepped ladder of one tick have the same lawful prices, so the two makes answer alike.
#[test]
fn makes_answer_alike(rt: HostRuntime) -> Result<(), Fail> {
    let even = EvenSet::new(&[10])?;
    let bands = [Band {
        start: None,
        tick: 10,
    }];
    let stepped = SteppedSet::new(&[&bands[0..1]])?;
    let (one, other) = round_two(&even, &stepped, 0, (-31, 2), (-31, 2));
    assert_eq!(rt; one, three(-20, -20, -10));
    assert_eq!(rt; other, three(-20, -20, -10));
    Ok(())
}
