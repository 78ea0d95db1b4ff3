// Lines of every command, and a value that may not be missing.
use book::days::Day;
use book::entries::{Entry, Kind};
use calls::call::Call;
use house::phases::Bell;
use house::terms::Listing;
use lines::faults::NotRead;
use lines::line_calls::LineCall;
use lines::parsing::parse;
use rows::places::{Edition, Marks};

fn entry(series: i64, stamp: i64, kind: Kind) -> LineCall {
    LineCall::Call(Call::Enter(Entry {
        series,
        stamp,
        kind,
    }))
}

#[test]
fn a_day_has_nine_numbers(rt: HostRuntime) {
    let day = Day {
        night: 63000,
        opening: 117900,
        afternoon: 131400,
        close: 141300,
        cut: 124200,
    };
    assert_eq!(rt;
        parse(b"day 63000 117900 131400 141300 124200 10 50 1000 -5"),
        Ok(LineCall::Day {
            day,
            ticks: [10, 50, 1000, -5],
        })
    );
}

#[test]
fn a_minus_alone_is_missing(rt: HostRuntime) {
    assert_eq!(rt;
        parse(b"list 3 0 1 - -250 0 1"),
        Ok(LineCall::Call(Call::List(Listing {
            family: 3,
            ladder: 0,
            reference: Some(1),
            previous_settlement: None,
            previous_spread: Some(-250),
            marks: Marks {
                last_day: false,
                quarter_end: true,
            },
        })))
    );
    assert_eq!(rt;
        parse(b"ruling 2 - 1"),
        Ok(LineCall::Call(Call::SetRuling {
            series: 2,
            value: None,
            first: true,
        }))
    );
    assert_eq!(rt;
        parse(b"quote 7 90000 - 38520000"),
        Ok(entry(
            7,
            90000,
            Kind::Quote {
                bid: None,
                ask: Some(38520000),
            },
        ))
    );
    assert_eq!(rt; parse(b"theory - 5"), Err(NotRead { place: 7 }));
}

#[test]
fn entries(rt: HostRuntime) {
    let (price, lots) = (-10, 9999999999);
    assert_eq!(rt;
        parse(b"trade -1 0 -10 9999999999"),
        Ok(entry(-1, 0, Kind::Trade { price, lots }))
    );
    assert_eq!(rt;
        parse(b"auction -1 0 -10 9999999999"),
        Ok(entry(-1, 0, Kind::Auction { price, lots }))
    );
    assert_eq!(rt;
        parse(b"leg -1 0 -10 9999999999"),
        Ok(entry(-1, 0, Kind::Leg { price, lots }))
    );
    assert_eq!(rt;
        parse(b"spread 4 90000 -15"),
        Ok(entry(4, 90000, Kind::Spread { difference: -15 }))
    );
}

#[test]
fn bells_and_questions(rt: HostRuntime) {
    assert_eq!(rt;
        parse(b"bell open"),
        Ok(LineCall::Call(Call::Ring(Bell::Open)))
    );
    assert_eq!(rt;
        parse(b"settle 0 morning"),
        Ok(LineCall::Call(Call::Settle {
            series: 0,
            edition: Edition::Morning,
        }))
    );
    assert_eq!(rt;
        parse(b"theory 0 0"),
        Ok(LineCall::Call(Call::SetTheory {
            series: 0,
            value: Some(0),
        }))
    );
}
