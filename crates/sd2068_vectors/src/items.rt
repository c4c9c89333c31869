// The items of the input: scripts from power-on or from a state, and script files.
use crate::files::from_file;
use crate::lines::print_refusal;
use crate::scripts::run_events;
use input::read_array;
use state_bytes::clock_of;
use std::io;
use std::io::Read;
use std::ops::ControlFlow::{self, Break, Continue};

// The most items of one input.
const MOST: u32 = 1000000;

// Items until the input ends.
pub(crate) fn run_all(rt: &impl Print, input: &mut impl Read) -> io::Result<()> {
    for _ in 0..MOST {
        if run_next(rt, input)?.is_break() {
            break;
        }
    }
    Ok(())
}

// The next item, by the number that the input has for it; a break where there is none, or not all of it.
fn run_next(rt: &impl Print, input: &mut impl Read) -> io::Result<ControlFlow<()>> {
    let Some(what) = read_array::<_, 1>(input)? else {
        return Ok(Break(()));
    };
    match what[0] {
        0 => from_power_on(rt, input),
        1 => from_state(rt, input),
        2 => from_file(rt, input),
        _ => Ok(Break(())),
    }
}

// Power-on; if it is refused, the state is that of 19 zero bytes. (rule 8.4)
fn from_power_on(rt: &impl Print, input: &mut impl Read) -> io::Result<ControlFlow<()>> {
    let Some(start) = read_array::<_, 19>(input)? else {
        return Ok(Break(()));
    };
    let started = sd2068::power_on(&start);
    print_refusal(rt, started.refusal, "\n")?;
    run_events(rt, input, started.clock)?;
    Ok(Continue(()))
}

// A state of any kind. (rule 8.2)
fn from_state(rt: &impl Print, input: &mut impl Read) -> io::Result<ControlFlow<()>> {
    let Some(bytes) = read_array::<_, 61>(input)? else {
        return Ok(Break(()));
    };
    run_events(rt, input, clock_of(&bytes))?;
    Ok(Continue(()))
}
