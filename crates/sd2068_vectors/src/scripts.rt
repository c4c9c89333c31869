// A script: a count of events, and the events one after the other. (rule 8.1)
use crate::lines::{print_state, print_step};
use events::{Event, Kind};
use input::read_full;
use sd2068::Clock;
use std::io;
use std::io::Read;

// The state is shown after a STOP, after a power loss and at the end.
pub(crate) fn run_events(rt: &impl Print, input: &mut impl Read, start: Clock) -> io::Result<()> {
    // What the input has not got of a count or of an event is 0.
    let mut count = [0u8; 2];
    read_full(input, &mut count)?;
    let (mut clock, mut shown) = (start, false);
    for _ in 0..u16::from_le_bytes(count) {
        (clock, shown) = run_event(rt, input, clock)?;
    }
    if !shown {
        print_state(rt, clock)?;
    }
    Ok(())
}

// The state after the next event, and whether it was shown.
fn run_event(rt: &impl Print, input: &mut impl Read, c: Clock) -> io::Result<(Clock, bool)> {
    let mut bytes = [0u8; 4];
    read_full(input, &mut bytes)?;
    // As a script file has an event, which `script` reads for itself alone.
    let [kind, byte, low, high] = bytes;
    let count = u16::from_le_bytes([low, high]);
    let event = Event { kind, byte, count };
    let r = c.step(event);
    print_step(rt, r)?;
    let shown = r.refusal.is_none()
        & matches!(Kind::try_from(event), Ok(Kind::Stop | Kind::PowerLoss));
    if shown {
        print_state(rt, r.clock)?;
    }
    Ok((r.clock, shown))
}
