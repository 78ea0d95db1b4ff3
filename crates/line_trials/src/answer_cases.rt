// Examples: each kind of answer in a buffer of dots, and a buffer that is too short.
use answers::faults::LineFault;
use answers::writing::write_answer;
use book::faults::{BookFault, DayFault};
use calls::call::Reply;
use house::faults::HouseFault;
use ladders::faults::LadderFault;
use lines::faults::NotRead;
use std::test::Fail;

#[test]
fn taken_calls(rt: HostRuntime) {
    let mut out = [b'.'; 96];
    assert_eq!(rt; write_answer(&Ok(Reply::Done), &mut out), Ok(4));
    assert!(rt; out.starts_with(b"done.."));
    assert_eq!(rt; write_answer(&Ok(Reply::Listed(31)), &mut out), Ok(9));
    assert!(rt; out.starts_with(b"listed 31.."));
}

#[test]
fn numbers(rt: HostRuntime) {
    assert_eq!(rt; LineFault::NoDay.number(), 2);
    assert_eq!(rt; LineFault::from(DayFault::NotLawful).number(), 1);
    assert_eq!(rt; LineFault::from(LadderFault::NoLadder).number(), 13);
    assert_eq!(rt; LineFault::from(HouseFault::SeriesFull).detail(), None);
}

#[test]
fn a_short_buffer(rt: HostRuntime) {
    let mut out = [b'.'; 95];
    assert_eq!(rt;
        write_answer(&Ok(Reply::Done), &mut out),
        Err(LineFault::ShortBuffer)
    );
    assert_eq!(rt; out, [b'.'; 95]);
}

#[test]
fn texts(rt: HostRuntime) -> Result<(), Fail> {
    let texts = [
        (LineFault::NoDay, "no day line was taken yet"),
        (LineFault::SecondDay, "a further day line"),
        (
            LineFault::Day(DayFault::NotLawful),
            "the day record is not lawful",
        ),
        (
            LineFault::Ladders(LadderFault::TickOutOfRange),
            "a tick is not 1 to 1000000",
        ),
        (
            LineFault::House(HouseFault::NoPrice(3)),
            "no step finds a price for series 3",
        ),
        (
            LineFault::House(HouseFault::Book(BookFault::Full)),
            "the book is full",
        ),
        (
            LineFault::NotRead(NotRead { place: 9 }),
            "not of the grammar from byte 9 on",
        ),
        (
            LineFault::ShortBuffer,
            "the buffer for the answer has fewer than 96 bytes",
        ),
    ];
    for (fault, text) in texts {
        let printed = format!(in rt.alloc(); "{fault}")?;
        assert_eq!(rt; printed.as_str(), text);
    }
    Ok(())
}
