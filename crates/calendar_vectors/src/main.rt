// Prints digests of what the calendar answers, for comparison with figures made without it.
#![tactic(auto)]

mod days;
mod digest;
mod draws;
mod lines;
mod month_ends;
mod patterns;

use std::io;

// The runtime goes from call to call beside the line, since it is lent for a call alone.
fn main(rt: HostRuntime) -> io::Result<()> {
    days::print_dates(&rt)?;
    month_ends::print_month_ends(&rt)?;
    patterns::print_patterns(&rt)
}
