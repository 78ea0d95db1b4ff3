// How many answers of each kind there were.
use crate::trades::LeftOut;
use anyhow::ensure;
use std::alloc::{AllocError, Global};

// The letters of the steps whose price has a time, and of those whose price has none. A copy has that of what it copies,
// which may be none.
const WITH_TIME: [&str; 6] = ["A", "L", "Q", "V", "S", "C"];

const WITHOUT_TIME: [&str; 6] = ["T", "U", "P", "B", "D", "C"];

// The refusals that a line may be answered with. 12 has no answer.
const REFUSALS: [&str; 12] = [
    "1", "2", "3", "4", "5", "6", "7", "8", "9", "10", "11", "13",
];

#[derive(Clone, Copy)]
struct Count {
    name: &'static str,
    times: u64,
}

#[derive(Drop)]
pub(crate) struct Tally {
    alloc: Global,
    days: u64,
    lines: u64,
    short: u64,
    done: u64,
    listed: u64,
    with_time: Vec<Count>,
    without_time: Vec<Count>,
    first_marks: u64,
    of_one_stamp: u64,
    later_outside: u64,
    refusals: Vec<Count>,
    // Answers that the rules do not have.
    unknown: u64,
}

fn add_one(number: &mut u64) {
    *number = number.saturating_add(1);
}

fn counts(alloc: Global, names: &[&'static str]) -> Result<Vec<Count>, AllocError> {
    names
        .iter()
        .map(|name| Count {
            name: *name,
            times: 0,
        })
        .collect(alloc)
}

// Whether there is a count of that name.
fn add_one_of(counts: &mut Vec<Count>, name: &str) -> bool {
    match counts.iter_mut().find(|count| count.name == name) {
        Some(count) => {
            add_one(&mut count.times);
            true
        }
        None => false,
    }
}

// Fails if it was never met.
fn show(rt: &impl Print, what: &str, name: &str, times: u64) -> anyhow::Result<()> {
    println!(rt; "{what} {name}: {times}")?;
    ensure!(times > 0, "{what} {name} was never met");
    Ok(())
}

// Fails if one of them was never met.
fn show_all(rt: &impl Print, what: &str, counts: &[Count]) -> anyhow::Result<()> {
    for count in counts {
        show(rt, what, count.name, count.times)?;
    }
    Ok(())
}

impl Tally {
    pub(crate) fn new(alloc: Global) -> Result<Tally, AllocError> {
        Ok(Tally {
            alloc,
            days: 0,
            lines: 0,
            short: 0,
            done: 0,
            listed: 0,
            with_time: counts(alloc, &WITH_TIME)?,
            without_time: counts(alloc, &WITHOUT_TIME)?,
            first_marks: 0,
            of_one_stamp: 0,
            later_outside: 0,
            refusals: counts(alloc, &REFUSALS)?,
            unknown: 0,
        })
    }

    pub(crate) fn add_day(&mut self) {
        add_one(&mut self.days);
    }

    pub(crate) fn add_short_buffer(&mut self) {
        add_one(&mut self.short);
    }

    pub(crate) fn add_left_out(&mut self, left_out: LeftOut) {
        match left_out {
            LeftOut::OfOneStamp => add_one(&mut self.of_one_stamp),
            LeftOut::LaterOutside => add_one(&mut self.later_outside),
        }
    }

    // An answer, told by its first word, and what it names: the step, its place and the time of a price, or a refusal.
    pub(crate) fn add_answer(&mut self, answer: &str) -> Result<(), AllocError> {
        add_one(&mut self.lines);
        let words: Vec<&str> = answer.split(' ').collect(self.alloc)?;
        let known = match words.as_slice() {
            ["done"] => {
                add_one(&mut self.done);
                true
            }
            ["listed", _] => {
                add_one(&mut self.listed);
                true
            }
            ["price", _, _, step, place, "-"] => self.add_untimed(step, place),
            ["price", _, _, step, _, _] => add_one_of(&mut self.with_time, step),
            ["refused", number @ ("10" | "11"), _] => add_one_of(&mut self.refusals, number),
            ["refused", "10" | "11"] => false,
            ["refused", number] => add_one_of(&mut self.refusals, number),
            _ => false,
        };
        if !known {
            add_one(&mut self.unknown);
        }
        Ok(())
    }

    // A price by that step that has no time. Whether there is such a price.
    fn add_untimed(&mut self, step: &str, place: &str) -> bool {
        if place == "0" {
            add_one(&mut self.first_marks);
        }
        add_one_of(&mut self.without_time, step)
    }

    // Fails if one of the kinds was never met.
    pub(crate) fn print(&self, rt: &impl Print) -> anyhow::Result<()> {
        println!(rt; "days: {}", self.days)?;
        println!(rt; "lines: {}", self.lines)?;
        show(
            rt,
            "lines with a short buffer first,",
            "refused 12",
            self.short,
        )?;
        println!(rt; "done: {}", self.done)?;
        println!(rt; "listed: {}", self.listed)?;
        ensure!(
            self.done > 0 && self.listed > 0,
            "nothing was done or listed"
        );
        show_all(rt, "price with a time by", self.with_time.as_slice())?;
        show_all(rt, "price without a time by", self.without_time.as_slice())?;
        show(
            rt,
            "price without a time by D",
            "at place 0",
            self.first_marks,
        )?;
        show(
            rt,
            "price by L",
            "of two trades of one stamp",
            self.of_one_stamp,
        )?;
        show(
            rt,
            "price by V",
            "with a later trade outside its window",
            self.later_outside,
        )?;
        show_all(rt, "refused", self.refusals.as_slice())?;
        ensure!(self.unknown == 0, "an answer is none of the rules");
        Ok(())
    }
}
