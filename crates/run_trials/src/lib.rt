// Two different runs for each law, the first over an even set on a board, the second over a stepped set on a tape.
#![tactic(auto)]

#[cfg(test)]
mod tests {
    use board::boards::Board;
    use book::books::Book;
    use book::days::Day;
    use book::entries::{Entry, Kind};
    use book::lawful::LawfulDay;
    use calls::call::Call;
    use house::answers::Settlement;
    use house::faults::HouseFault;
    use house::houses::House;
    use house::phases::Bell;
    use house::terms::Listing;
    use ladders::bands::Band;
    use ladders::sets::{EvenSet, SteppedSet};
    use rows::places::{Edition, Marks};
    use rows::steps::Step;
    use runs::comparing::{Outcomes, Run, compare, compare_makes};
    use std::test::Fail;
    use tape::tapes::{BLANK, Tape};

    const DAY: Day = Day {
        night: 61_200,
        opening: 117_900,
        afternoon: 131_400,
        close: 143_100,
        cut: 126_000,
    };

    const OPEN: Call = Call::Ring(Bell::Open);

    const CLOSE: Call = Call::Ring(Bell::Close);

    fn list(family: i64, reference: Option<i64>) -> Call {
        Call::List(Listing {
            family,
            ladder: 0,
            reference,
            previous_settlement: None,
            previous_spread: None,
            marks: Marks {
                last_day: false,
                quarter_end: false,
            },
        })
    }

    fn enter(series: i64, stamp: i64, kind: Kind) -> Call {
        Call::Enter(Entry {
            series,
            stamp,
            kind,
        })
    }

    fn trade(series: i64, price: i64) -> Call {
        enter(series, 140_000, Kind::Trade { price, lots: 1 })
    }

    fn theory(value: i64) -> Call {
        Call::SetTheory {
            series: 0,
            value: Some(value),
        }
    }

    fn settlement(
        price: i64,
        step: Step,
        place: u8,
        time: Option<i32>,
    ) -> Result<Settlement, HouseFault> {
        Ok(Settlement {
            price,
            step,
            place,
            time,
        })
    }

    // Both runs on ticks of 10, and the question for the close of a series after each.
    fn both(calls: &[Call], other_calls: &[Call], series: i64) -> Result<Outcomes, Fail> {
        let bands = [Band {
            start: None,
            tick: 10,
        }];
        let even = EvenSet::new(&[10i64])?;
        let stepped = SteppedSet::new(&[&bands[0..1]])?;
        let mut slots = [BLANK; 8];
        let day = LawfulDay::new(DAY)?;
        Ok(compare_makes(
            day,
            even,
            30_000,
            calls,
            stepped,
            &mut slots,
            other_calls,
            series,
            Edition::Close,
        ))
    }

    // A leg on the path, a trade off it, a refused bell and a question change nothing.
    #[test]
    fn the_same_evidence_gives_the_same_answer(rt: HostRuntime) -> Result<(), Fail> {
        let ask = Call::Settle {
            series: 0,
            edition: Edition::Morning,
        };
        let leg = enter(0, 141_000, Kind::Leg { price: 90, lots: 9 });
        let calls = [list(1, None), list(9, None), OPEN, trade(0, 50), CLOSE];
        let other_calls = [
            list(1, None),
            list(12, None),
            OPEN,
            OPEN,
            trade(1, 70),
            trade(0, 50),
            ask,
            leg,
            CLOSE,
        ];
        let (first, second) = both(&calls, &other_calls, 0)?;
        assert_eq!(rt; first, settlement(50, Step::Trade, 2, Some(140_000)));
        assert_eq!(rt; second, first);
        Ok(())
    }

    // A theory value of 104 is 105 in the second run; a copying series follows.
    #[test]
    fn raised_prices_lower_no_answer(rt: HostRuntime) -> Result<(), Fail> {
        let calls = [list(9, None), list(8, Some(0)), theory(104), OPEN, CLOSE];
        let other_calls = [list(9, None), list(8, Some(0)), OPEN, theory(105), CLOSE];
        let (first, second) = both(&calls, &other_calls, 1)?;
        assert_eq!(rt; first, settlement(100, Step::Copy, 1, None));
        assert_eq!(rt; second, settlement(110, Step::Copy, 1, None));
        Ok(())
    }

    // A quote's ask and a trade are raised; the quote decides.
    #[test]
    fn raised_quotes_lower_no_answer(rt: HostRuntime) -> Result<(), Fail> {
        let quote = |ask| {
            enter(
                0,
                139_999,
                Kind::Quote {
                    bid: Some(100),
                    ask: Some(ask),
                },
            )
        };
        let calls = [list(10, None), OPEN, quote(120), trade(0, 90), CLOSE];
        let other_calls = [list(10, None), OPEN, quote(130), trade(0, 110), CLOSE];
        let (first, second) = both(&calls, &other_calls, 0)?;
        assert_eq!(rt; first, settlement(110, Step::Quote, 2, Some(139_999)));
        assert_eq!(rt; second, settlement(120, Step::Quote, 2, Some(139_999)));
        Ok(())
    }

    // A trade stands among further ones, and an auction comes before it.
    #[test]
    fn more_entries_settle_no_later(rt: HostRuntime) -> Result<(), Fail> {
        let auction = enter(0, 142_000, Kind::Auction { price: 80, lots: 2 });
        let calls = [list(3, None), OPEN, trade(0, 50), CLOSE];
        let other_calls = [
            list(3, None),
            OPEN,
            trade(0, 40),
            trade(0, 50),
            auction,
            CLOSE,
        ];
        let (first, second) = both(&calls, &other_calls, 0)?;
        assert_eq!(rt; first, settlement(50, Step::Trade, 3, Some(140_000)));
        assert_eq!(rt; second, settlement(80, Step::Auction, 1, Some(142_000)));
        Ok(())
    }

    // An auction in the afternoon comes before the theory value.
    #[test]
    fn more_evidence_settles_no_later(rt: HostRuntime) -> Result<(), Fail> {
        let auction = enter(0, 142_000, Kind::Auction { price: 80, lots: 2 });
        let calls = [list(1, None), theory(100), OPEN, CLOSE];
        let other_calls = [list(1, None), theory(100), OPEN, auction, CLOSE];
        let (first, second) = both(&calls, &other_calls, 0)?;
        assert_eq!(rt; first, settlement(100, Step::Theory, 3, None));
        assert_eq!(rt; second, settlement(80, Step::Auction, 1, Some(142_000)));
        Ok(())
    }

    // A house and a book that were lent to a run take further calls: the second house is still trading, on two trades.
    #[test]
    fn houses_and_books_hold_the_end_of_their_runs(rt: HostRuntime) -> Result<(), Fail> {
        let day = LawfulDay::new(DAY)?;
        let mut slots = [BLANK; 8];
        let mut house = House::new(EvenSet::new(&[10i64])?);
        let mut board = Board::new(day, 8);
        let mut other = House::new(EvenSet::new(&[10i64])?);
        let mut tape = Tape::new(day, &mut slots);
        let calls = [list(1, None), OPEN, trade(0, 50), CLOSE];
        let other_calls = [list(1, None), OPEN, trade(0, 50), trade(0, 60)];
        let first = Run {
            house: &mut house,
            book: &mut board,
            calls: &calls,
        };
        let second = Run {
            house: &mut other,
            book: &mut tape,
            calls: &other_calls,
        };
        let (one, two) = compare(first, second, 0, Edition::Close);
        assert_eq!(rt; one, settlement(50, Step::Trade, 2, Some(140_000)));
        assert_eq!(rt; two, Err(HouseFault::WrongPhase));
        assert_eq!(rt; house.settle(&board, 0, Edition::Close), one);
        assert_eq!(rt; (board.count(), tape.count()), (1, 2));
        assert_eq!(rt; other.ring(Bell::Close), Ok(()));
        let later = other.settle(&tape, 0, Edition::Close);
        assert_eq!(rt; later, settlement(60, Step::Trade, 2, Some(140_000)));
        Ok(())
    }

    // Both are refused from the same origin, a family that needs evidence of its own.
    #[test]
    fn refusals_have_one_origin(rt: HostRuntime) -> Result<(), Fail> {
        let calls = [
            list(1, None),
            list(2, Some(0)),
            list(8, Some(1)),
            OPEN,
            CLOSE,
        ];
        let (first, second) = both(&calls, &calls, 2)?;
        assert_eq!(rt; first, Err(HouseFault::NoPrice(0)));
        assert_eq!(rt; second, first);
        Ok(())
    }
}
