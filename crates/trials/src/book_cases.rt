// Small cases of a book, tried on both makes.
use board::boards::Board;
use book::books::Book;
use book::days::Day;
use book::entries::{Entry, Kind};
use book::faults::BookFault;
use book::figures::{Last, Sides};
use book::lawful::LawfulDay;
use book::windows::edges;
use std::process::Abort;
use std::test::Fail;
use tape::tapes::{BLANK, Tape};

const DAY: Day = Day {
    night: 61_200,
    opening: 117_900,
    afternoon: 131_400,
    close: 143_100,
    cut: 126_000,
};

fn entry(stamp: i64, kind: Kind) -> Entry {
    Entry {
        series: 0,
        stamp,
        kind,
    }
}

fn trade(stamp: i64, price: i64) -> Entry {
    entry(stamp, Kind::Trade { price, lots: 1 })
}

fn last_figure<V>(stamp: i32, value: V) -> Option<Last<V>> {
    Some(Last { stamp, value })
}

fn quote(stamp: i64, bid: Option<i64>, ask: Option<i64>) -> Entry {
    entry(stamp, Kind::Quote { bid, ask })
}

// The later stamp is last, whatever the order; of equal stamps the entry that came later.
fn last_trade<B: Book>(rt: &impl Abort, book: &mut B) -> Result<(), Fail> {
    book.take(trade(140_000, 10))?;
    book.take(trade(139_999, 20))?;
    assert_eq!(rt; book.figures(0, 1).trade, last_figure(140_000, 10));
    book.take(trade(140_000, 30))?;
    book.take(entry(140_001, Kind::Leg { price: 40, lots: 1 }))?;
    assert_eq!(rt; book.figures(0, 1).trade, last_figure(140_000, 30));
    assert_eq!(rt; book.figures(0, 1).money, 60);
    Ok(())
}

// A quote with one side or none becomes the last quote; a crossed one is refused.
fn last_quote<B: Book>(rt: &impl Abort, book: &mut B) -> Result<(), Fail> {
    book.take(quote(140_000, Some(5), None))?;
    assert_eq!(rt;
        book.figures(0, 1).quote,
        last_figure(
            140_000,
            Sides {
                bid: Some(5),
                ask: None,
            }
        )
    );
    book.take(quote(140_000, None, None))?;
    assert_eq!(rt;
        book.figures(0, 1).quote,
        last_figure(
            140_000,
            Sides {
                bid: None,
                ask: None,
            }
        )
    );
    assert_eq!(rt;
        book.take(quote(140_001, Some(5), Some(5))),
        Err(BookFault::BeyondLimits)
    );
    assert_eq!(rt; book.count(), 2);
    Ok(())
}

// A window holds its first and its last second and neither neighbour.
fn on_edges<B: Book>(rt: &impl Abort, book: &mut B, window: u8) -> Result<(), Fail> {
    let (first, last) = edges(&DAY, window);
    let _ = book.take(trade(first.saturating_sub(1), 1));
    book.take(trade(first, 2))?;
    book.take(trade(last, 3))?;
    let _ = book.take(trade(last.saturating_add(1), 4));
    let figures = book.figures(0, window);
    assert_eq!(rt; figures.lots, 2);
    let trade = figures
        .trade
        .map(|trade| (i64::from(trade.stamp), trade.value));
    assert_eq!(rt; trade, Some((last, 3)));
    Ok(())
}

// A book of one place is full after one entry; an entry beyond the limits is still told so.
fn filled<B: Book>(rt: &impl Abort, book: &mut B) -> Result<(), Fail> {
    book.take(trade(140_000, 10))?;
    assert_eq!(rt; book.take(trade(140_000, 20)), Err(BookFault::Full));
    assert_eq!(rt; book.take(trade(143_101, 20)), Err(BookFault::BeyondLimits));
    assert_eq!(rt; book.figures(0, 1).trade, last_figure(140_000, 10));
    Ok(())
}

#[test]
fn last_figures(rt: HostRuntime) -> Result<(), Fail> {
    let day = LawfulDay::new(DAY)?;
    let mut slots = [BLANK; 8];
    last_trade(&rt, &mut Tape::new(day, &mut slots))?;
    last_quote(&rt, &mut Tape::new(day, &mut slots))?;
    last_trade(&rt, &mut Board::new(day, 8))?;
    last_quote(&rt, &mut Board::new(day, 8))
}

#[test]
fn window_edges(rt: HostRuntime) -> Result<(), Fail> {
    let day = LawfulDay::new(DAY)?;
    for window in 1..14 {
        let mut slots = [BLANK; 8];
        on_edges(&rt, &mut Tape::new(day, &mut slots), window)?;
        on_edges(&rt, &mut Board::new(day, 8), window)?;
    }
    Ok(())
}

#[test]
fn full_books(rt: HostRuntime) -> Result<(), Fail> {
    let day = LawfulDay::new(DAY)?;
    let mut slots = [BLANK; 1];
    filled(&rt, &mut Tape::new(day, &mut slots))?;
    filled(&rt, &mut Board::new(day, 1))?;
    let mut none = [BLANK; 0];
    let mut tape = Tape::new(day, &mut none);
    assert_eq!(rt; tape.take(trade(140_000, 10)), Err(BookFault::Full));
    assert_eq!(rt; tape.capacity(), 0);
    Ok(())
}
