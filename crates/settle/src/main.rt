// One day of settlements: lines from standard input, their answers to standard output.
#![tactic(auto)]

use board_day::day::serve_day;
use std::io;

fn main(rt: HostRuntime) -> io::Result<()> {
    serve_day(&mut rt.reader(), &mut io::writer(&rt))
}
