// Rounds prices for a clerk. A line of input is a ladder, a colon, and numbers or fractions to round on it; the ladder is
// a tick, or bands as tick, start, tick, start, tick.
#![tactic(auto)]

use ladders::bands::Band;
use ladders::faults::LadderFault;
use ladders::rounding::{Rounded, round};
use ladders::sets::{EvenSet, LadderSet, SteppedSet};
use std::alloc::{AllocError, Global};
use std::io;
use std::io::{BufRead, BufReader};
use std::iter::once;

// The numbers of a ladder's description, in their order; nothing where a word is no number.
fn numbers(heap: Global, text: &str) -> Result<Option<Vec<i64>>, AllocError> {
    text.split_whitespace()
        .map(|word| word.parse().ok())
        .collect(heap)
}

// A band with a start, from its start and its tick.
fn later_band([start, tick]: &[i64; 2]) -> Band {
    Band {
        start: Some(*start),
        tick: *tick,
    }
}

// The bands of a description: a tick, then a start and a tick for each later band.
fn bands(heap: Global, ladder: &[i64]) -> Result<Vec<Band>, AllocError> {
    let Some((first, later)) = ladder.split_first() else {
        return Ok(Vec::new(heap));
    };
    let head = Band {
        start: None,
        tick: *first,
    };
    once(head)
        .chain(later.as_chunks::<2>().0.iter().map(later_band))
        .collect(heap)
}

// A number or a fraction, as numerator and denominator.
fn fraction(word: &str) -> Option<(i64, u32)> {
    let (n, d) = word.split_once('/').unwrap_or((word, "1"));
    Some((n.parse().ok()?, d.parse().ok()?))
}

fn answer_value<S: LadderSet>(rt: &HostRuntime, set: &S, word: &str) -> io::Result<()> {
    let Some(f) = fraction(word) else {
        return println!(rt; "{word}: not a number");
    };
    if f.1 == 0 {
        return println!(rt; "{word}: a denominator of zero");
    }
    match round(set, 0, f) {
        Some(
            Rounded {
                below,
                nearest,
                above,
            },
        ) => println!(rt; "{word}: below {below} nearest {nearest} above {above}"),
        None => println!(rt; "{word}: beyond the price limit"),
    }
}

fn refuse(rt: &HostRuntime, fault: LadderFault) -> io::Result<()> {
    let number = fault.number();
    println!(rt; "refused {number}: {fault}")
}

fn answer_values<S: LadderSet + Drop>(
    rt: &HostRuntime,
    set: Result<S, LadderFault>,
    values: &str,
) -> io::Result<()> {
    let set = match set {
        Ok(set) => set,
        Err(fault) => return refuse(rt, fault),
    };
    for word in values.split_whitespace() {
        answer_value(rt, &set, word)?;
    }
    Ok(())
}

// One tick is an even ladder; anything else is described by its bands. After the first tick, starts and ticks come in pairs.
fn answer_ladder(rt: &HostRuntime, ladder: &[i64], values: &str) -> io::Result<()> {
    if !ladder.is_empty() && ladder.len() % 2 == 0 {
        return refuse(rt, LadderFault::StartMisplaced);
    }
    if ladder.len() == 1 {
        return answer_values(rt, EvenSet::new(ladder), values);
    }
    let described = bands(rt.alloc(), ladder)?;
    answer_values(rt, SteppedSet::new(&[described.as_slice()]), values)
}

fn answer_line(rt: &HostRuntime, line: &str) -> io::Result<()> {
    let Some((ladder, values)) = line.split_once(':') else {
        return println!(rt; "not read: no colon after the ladder");
    };
    match numbers(rt.alloc(), ladder)? {
        Some(found) => answer_ladder(rt, found.as_slice(), values),
        None => println!(rt; "not read: a word of the ladder is no number"),
    }
}

fn main(rt: HostRuntime) -> io::Result<()> {
    let heap = rt.alloc();
    for line in BufReader::new(heap, rt.stdin())?.split(heap, b'\n') {
        let line = line?;
        let text = String::from_utf8_lossy(heap, line.as_slice())?;
        answer_line(&rt, text.as_str())?;
    }
    Ok(())
}
