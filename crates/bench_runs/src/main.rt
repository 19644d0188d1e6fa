// Runs of the public calls on graphs. Each names its case and prints what the call answers, 0 and its values or the refusal's number, and
// then what was lent, words that were 9 before; an answer by value is printed also where it refuses. `stdout` holds what must come out.
#![tactic(auto)]

mod graphs;
mod windows;

use std::io;

fn main(rt: HostRuntime) -> io::Result<()> {
    graphs::run(&rt)?;
    windows::run(&rt)
}
