// Prints what happened in the run of the script file on standard input, for whoever words or draws it. (section 11)
#![tactic(auto)]

mod lines;
mod pen;
mod pulses;

ghost use Rattle.std.specs.Prelude.{◌≤◌, length};

use crate::lines::print_run;
use events::Refusal;
use input::read_full;
use script::{LONGEST_REFUSED, put_refused, run};
use std::io;

// The runtime goes from call to call beside what is printed, since it is lent for a call alone.
fn main(rt: HostRuntime) -> io::Result<()> {
    // As much as the script program takes; what is done with it differs. (rule 9.6)
    let mut file = [0u8; 16385];
    let got = read_full(&mut rt.stdin(), &mut file)?;
    let mut out = [0u8; 20445];
    explain(&rt, &file[..got], &mut out)
}

// The run says whether the file is refused, and how many events it has.
fn explain(rt: &impl Print, file: &[u8], out: &mut [u8]) -> io::Result<()>
    requires { length out.old ≤ 20445 }
{
    match run(file, out) {
        Ok(ran) => print_run(rt, file, ran.count as u16),
        Err(refused) => print_refusal(rt, refused.refusal, refused.index),
    }
}

// The script program's line, with the index before its newline: all that the two share is `put_refused`. (rules 9.6 and 11.7)
fn print_refusal(rt: &impl Print, refusal: Refusal, index: usize) -> io::Result<()> {
    let mut line = [0u8; LONGEST_REFUSED];
    let size = put_refused(&mut line, refusal.number()).unwrap();
    rt.write_all(&line[..size - 1])?;
    println!(rt; " {index}")
}
