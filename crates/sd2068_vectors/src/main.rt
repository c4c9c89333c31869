// Runs the items on standard input, for comparison with lines made without the proved code.
#![tactic(auto)]

mod files;
mod items;
mod lines;
mod scripts;

use std::io;

// Runtime and input go from call to call beside one another, since each is lent for a call alone.
fn main(rt: HostRuntime) -> io::Result<()> {
    items::run_all(&rt, &mut rt.stdin())
}
