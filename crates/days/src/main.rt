// Random days, each line of which is answered three times: by a desk over a board, by a desk over a tape, and by the second
// settlement. The answers have to be the same, byte for byte.
#![tactic(auto)]

mod benches;
mod chance;
mod damage;
mod plans;
mod stamps;
mod tallies;
mod trades;

use crate::benches::Bench;
use crate::plans::Plan;
use crate::tallies::Tally;
use tape::tapes::BLANK;

const DAYS: u64 = 2_000;

// The most places that a day's book has here.
const PLACES: usize = 256;

// How many places the book of a day has: mostly enough.
fn capacity_of(seed: u64) -> usize {
    match seed % 20 {
        0 => 0,
        1 => 1,
        2 => 20,
        3 => 60,
        _ => PLACES,
    }
}

fn run_day(rt: &HostRuntime, seed: u64, tally: &mut Tally) -> anyhow::Result<()> {
    let plan = Plan::of(rt.alloc(), seed)?;
    let capacity = capacity_of(seed).min(PLACES);
    let mut slots = [BLANK; PLACES];
    let mut bench = Bench::new(rt.alloc(), &mut slots[..capacity]);
    if let Err(error) = bench.answer_all(rt, plan.lines(), tally) {
        println!(rt; "day {seed}")?;
        return Err(error);
    }
    tally.add_day();
    Ok(())
}

fn run(rt: &HostRuntime) -> anyhow::Result<()> {
    let mut tally = Tally::new(rt.alloc())?;
    for seed in 1..=DAYS {
        run_day(rt, seed, &mut tally)?;
    }
    tally.print(rt)?;
    println!(rt; "no answer differs")?;
    Ok(())
}

fn main(rt: HostRuntime) -> anyhow::Result<()> {
    run(&rt)
}
