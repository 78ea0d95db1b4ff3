// A line read by the values of its command.
#![tactic(auto, using(crate::proofs::Made::missed_call, crate::proofs::Writings::grammar))]

ghost use Rattle.std.specs.Prelude.{◌≡◌};
ghost use Rattle.lines.specs.Reading.{ReadFrom};
ghost use Rattle.lines.specs.Spelled.{Alone, FieldsEnd, Longest, Named, OnePlace, OneReading, Parsed, Within, WritingsApart, value_fields};
ghost use Rattle.lines.specs.declared.line_calls.LineCall.TheVariants as line_calls;
ghost use Rattle.lines.specs.declared.names.Command.TheVariants as commands;
ghost use Rattle.calls.specs.declared.call.Call.TheVariants as house_calls;

use crate::faults::NotRead;
use crate::line_calls::LineCall;
use crate::names::Command;
use crate::readers::{LONGEST, Reader};
use crate::tuples::FromFields;
use crate::values::FromField;
use book::days::Day;
use book::entries::{Entry, Kind};
use calls::call::Call;
use house::phases::Bell;
use house::terms::Listing;
use rows::places::{Edition, Marks};

// The values of a line as nested pairs, as they are read.
type Four = (i64, (i64, (i64, (i64, ()))));

type DayFields = (i64, (i64, (i64, (i64, (i64, Four)))));

type TwoMarks = (bool, (bool, ()));

type ListFields = (
    i64,
    (i64, (Option<i64>, (Option<i64>, (Option<i64>, TwoMarks)))),
);

fn read_day(reader: &mut Reader<'_>) -> Result<LineCall, NotRead>
    ensures { ReadFrom value_fields (Named commands.Day) reader.old result }
{
    let (night, (opening, (afternoon, (close, (cut, ticks))))) = DayFields::from_fields(reader)?;
    let (first, (second, (third, (fourth, ())))) = ticks;
    Ok(LineCall::Day {
        day: Day {
            night,
            opening,
            afternoon,
            close,
            cut,
        },
        ticks: [first, second, third, fourth],
    })
}

fn read_list(reader: &mut Reader<'_>) -> Result<LineCall, NotRead>
    ensures { ReadFrom value_fields (Named commands.List) reader.old result }
{
    let (family, (ladder, (reference, (previous_settlement, (previous_spread, marks))))) =
        ListFields::from_fields(reader)?;
    let (last_day, (quarter_end, ())) = marks;
    Ok(LineCall::Call(Call::List(Listing {
        family,
        ladder,
        reference,
        previous_settlement,
        previous_spread,
        marks: Marks {
            last_day,
            quarter_end,
        },
    })))
}

fn read_bell(reader: &mut Reader<'_>) -> Result<LineCall, NotRead>
    ensures { ReadFrom value_fields (Named commands.Bell) reader.old result }
{
    let (bell, ()) = <(Bell, ())>::from_fields(reader)?;
    Ok(LineCall::Call(Call::Ring(bell)))
}

fn entry(series: i64, stamp: i64, kind: Kind) -> LineCall
    ensures { result ≡ line_calls.Call (house_calls.Enter (record { series = series; stamp = stamp; kind = kind })) }
{
    LineCall::Call(Call::Enter(Entry {
        series,
        stamp,
        kind,
    }))
}

// Trades, auctions and legs one by one: a function that took the kind as a closure could only promise by way of the closure,
// and not that the line is a trade's.
fn read_trade(reader: &mut Reader<'_>) -> Result<LineCall, NotRead>
    ensures { ReadFrom value_fields (Named commands.Trade) reader.old result }
{
    let (series, (stamp, (price, (lots, ())))) = Four::from_fields(reader)?;
    Ok(entry(series, stamp, Kind::Trade { price, lots }))
}

fn read_auction(reader: &mut Reader<'_>) -> Result<LineCall, NotRead>
    ensures { ReadFrom value_fields (Named commands.Auction) reader.old result }
{
    let (series, (stamp, (price, (lots, ())))) = Four::from_fields(reader)?;
    Ok(entry(series, stamp, Kind::Auction { price, lots }))
}

fn read_leg(reader: &mut Reader<'_>) -> Result<LineCall, NotRead>
    ensures { ReadFrom value_fields (Named commands.Leg) reader.old result }
{
    let (series, (stamp, (price, (lots, ())))) = Four::from_fields(reader)?;
    Ok(entry(series, stamp, Kind::Leg { price, lots }))
}

fn read_spread(reader: &mut Reader<'_>) -> Result<LineCall, NotRead>
    ensures { ReadFrom value_fields (Named commands.Spread) reader.old result }
{
    let (series, (stamp, (difference, ()))) = <(i64, (i64, (i64, ())))>::from_fields(reader)?;
    Ok(entry(series, stamp, Kind::Spread { difference }))
}

fn read_quote(reader: &mut Reader<'_>) -> Result<LineCall, NotRead>
    ensures { ReadFrom value_fields (Named commands.Quote) reader.old result }
{
    let (series, (stamp, (bid, (ask, ())))) = <(
        i64,
        (i64, (Option<i64>, (Option<i64>, ()))),
    )>::from_fields(reader)?;
    Ok(entry(series, stamp, Kind::Quote { bid, ask }))
}

fn read_theory(reader: &mut Reader<'_>) -> Result<LineCall, NotRead>
    ensures { ReadFrom value_fields (Named commands.Theory) reader.old result }
{
    let (series, (value, ())) = <(i64, (Option<i64>, ()))>::from_fields(reader)?;
    Ok(LineCall::Call(Call::SetTheory { series, value }))
}

fn read_ruling(reader: &mut Reader<'_>) -> Result<LineCall, NotRead>
    ensures { ReadFrom value_fields (Named commands.Ruling) reader.old result }
{
    let (series, (value, (first, ()))) = <(i64, (Option<i64>, (bool, ())))>::from_fields(reader)?;
    Ok(LineCall::Call(Call::SetRuling {
        series,
        value,
        first,
    }))
}

fn read_settle(reader: &mut Reader<'_>) -> Result<LineCall, NotRead>
    ensures { ReadFrom value_fields (Named commands.Settle) reader.old result }
{
    let (series, (edition, ())) = <(i64, (Edition, ()))>::from_fields(reader)?;
    Ok(LineCall::Call(Call::Settle { series, edition }))
}

// The call of the command whose values are the fields left.
fn read(command: Command, reader: &mut Reader<'_>) -> Result<LineCall, NotRead>
    ensures { ReadFrom value_fields (Named command) reader.old result }
{
    // A match, and no table of functions: the commands are closed, and each arm is a promise of its own.
    match command {
        Command::Day => read_day(reader),
        Command::List => read_list(reader),
        Command::Bell => read_bell(reader),
        Command::Trade => read_trade(reader),
        Command::Auction => read_auction(reader),
        Command::Leg => read_leg(reader),
        Command::Spread => read_spread(reader),
        Command::Quote => read_quote(reader),
        Command::Theory => read_theory(reader),
        Command::Ruling => read_ruling(reader),
        Command::Settle => read_settle(reader),
    }
}

/// The call that the line is the writing of. The error is for a line that is no call's, and tells where the line departs from
/// the grammar.
pub fn parse(line: &[u8]) -> Result<LineCall, NotRead>
    ensures parsed { Parsed line.now result }
    ensures alone { Alone line.now result }
    ensures within { Within line.now result }
{
    if line.len() > LONGEST {
        return Err(NotRead {
            place: LONGEST as u8,
        });
    }
    let (name, mut reader) = Reader::begin(line);
    let Some(command) = Command::from_field(name.bytes) else {
        return Err(name.refusal());
    };
    read(command, &mut reader)
}

/// How long the line of a call can be, in bytes. Its clauses are the laws of the grammar: no call has a longer line, no two
/// calls share one, no line is read in two ways or has two places, and a line's fields end where the line does.
pub fn longest_line() -> usize
    ensures value { result ≡ 200 }
    ensures longest { Longest result }
    ensures apart { WritingsApart }
    ensures reading { OneReading }
    ensures place { OnePlace }
    ensures end { FieldsEnd }
{
    LONGEST
}
