// The lines of a run, event by event. (rule 11.7)
use crate::pen::{Number, State};
use crate::pulses::print_pulses;
use calendar::Time;
use events::{Event, Kind};
use facts::{Deed, deed_of};
use script::{listed, start};
use sd2068::Clock;
use std::io;

pub(crate) fn print_run(rt: &impl Print, file: &[u8], count: u16) -> io::Result<()> {
    let mut clock = start(file).clock;
    print_start(rt, clock)?;
    // By its number, which the line prints and `listed` asks for.
    for i in 0..count {
        clock = print_event(rt, i, listed(file, i), clock)?;
    }
    println!(rt; "end {count}")
}

fn print_start(rt: &impl Print, c: Clock) -> io::Result<()> {
    let letter = c.pin().letter() as char;
    println!(rt; "start {} {} {letter}", State(c), Number(c.hand.time))
}

// Its pulses, if it has any, then its line; hands on the state that it leaves.
fn print_event(rt: &impl Print, i: u16, event: Event, before: Clock) -> io::Result<Clock> {
    // Of the kinds only pulses have lines of their own. (rule 11.8)
    if let Ok(Kind::Pulses(count)) = Kind::try_from(event) {
        print_pulses(rt, before, count)?;
    }
    let done = before.step(event);
    print!(rt;
        "event {i} {} {:02X} {} ",
        event.kind, event.byte, event.count
    )?;
    // As the script program prints it, the newline apart. (rule 9.5)
    rt.write_all(&done.answer.text())?;
    print!(rt; " {} ", done.pin.letter() as char)?;
    print_deed(rt, deed_of(before, event))?;
    print_left(rt, done.clock)?;
    Ok(done.clock)
}

// The deed's word, and the register that it was done at.
fn print_deed(rt: &impl Print, deed: Deed) -> io::Result<()> {
    match told(deed) {
        (word, Some(a)) => print!(rt; "{word} {a:02X}"),
        (word, None) => print!(rt; "{word} --"),
    }
}

fn told(deed: Deed) -> (&'static str, Option<u8>) {
    match deed {
        Deed::Refused => ("refused", None),
        Deed::Opened => ("opened", None),
        Deed::Repeated => ("repeated", None),
        Deed::Closed => ("closed", None),
        Deed::Cleared => ("cleared", None),
        Deed::Idle => ("idle", None),
        Deed::ToWrite => ("to-write", None),
        Deed::ToRead => ("to-read", None),
        Deed::Elsewhere => ("elsewhere", None),
        Deed::Pointed(a) => ("pointed", Some(a)),
        Deed::Beyond => ("beyond", None),
        Deed::Stored(a) => ("stored", Some(a)),
        Deed::Lost(a) => ("lost", Some(a)),
        Deed::Unheard => ("unheard", None),
        Deed::Latched(a) => ("latched", Some(a)),
        Deed::Sent(a) => ("sent", Some(a)),
        Deed::Renewed(a) => ("renewed", Some(a)),
        Deed::Silent => ("silent", None),
        Deed::Passed => ("passed", None),
        Deed::PowerLost => ("power-lost", None),
    }
}

// What the event left: the state, the second numbers of the time and of the latched one, and that one's id.
fn print_left(rt: &impl Print, c: Clock) -> io::Result<()> {
    let latched = Time::from(c.latched);
    print!(rt;
        " {} {} {} ",
        State(c),
        Number(c.hand.time),
        Number(latched)
    )?;
    print!(rt; "{:02X}{:02X}", latched.month, latched.day)?;
    println!(rt; "{:02X}{:02X}", latched.hours % 0x80, latched.minutes)
}
