// Runs the script file on standard input: prints its lines, or only what it is refused for. (section 9)
#![tactic(auto)]

use events::Refusal;
use input::read_full;
use script::{LONGEST_REFUSED, put_refused, run};
use std::io;

fn main(rt: HostRuntime) -> io::Result<()> {
    // One byte more than a file may have, so that a longer one is refused.
    let mut file = [0u8; 16385];
    let got = read_full(&mut rt.stdin(), &mut file)?;
    // Five bytes for each of 4,089 events, the most that a file can have.
    let mut out = [0u8; 20445];
    run_file(&rt, &file[..got], &mut out)
}

// File and output are two buffers of fixed size, lent as `run` takes them.
fn run_file(rt: &impl Print, file: &[u8], out: &mut [u8]) -> io::Result<()> {
    match run(file, out) {
        Ok(ran) => rt.write_all(&out[..5 * ran.count]),
        Err(refused) => print_refusal(rt, refused.refusal),
    }
}

fn print_refusal(rt: &impl Print, refusal: Refusal) -> io::Result<()> {
    let mut line = [0u8; LONGEST_REFUSED];
    let size = put_refused(&mut line, refusal.number()).unwrap();
    rt.write_all(&line[..size])
}
