// The pulses of an event, one by one, and what happened in each. (rules 11.6 and 11.8)
use crate::pen::Number;
use calendar::Time;
use control::Level;
use events::{Event, Kind};
use facts::{Moment, moment_of};
use sd2068::Clock;
use std::io;

// Of what may happen every few pulses, as many as have lines of their own in one event.
const MOST_LINES: u32 = 64;

// What happened in one pulse, the time behind it, and where the pin has moved to, if it has.
#[derive(Clone, Copy)]
struct Pulse {
    moment: Moment,
    time: Time,
    moved: Option<Level>,
}

// How often each has happened in an event, which has 65,535 pulses at most.
#[derive(Clone, Copy, Default)]
struct Counts {
    seconds: u32,
    alarms: u32,
    zeros: u32,
    pins: u32,
}

impl Counts {
    fn with(self, p: &Pulse) -> Counts {
        Counts {
            seconds: self.seconds.wrapping_add(p.moment.second as u32),
            alarms: self.alarms.wrapping_add(p.moment.alarm as u32),
            zeros: self.zeros.wrapping_add(p.moment.zero as u32),
            pins: self.pins.wrapping_add(p.moved.is_some() as u32),
        }
    }
}

impl Pulse {
    // Its lines as pulse k, in the order of a pulse's stages.
    fn print(&self, rt: &impl Print, k: u16, before: Counts) -> io::Result<()> {
        if self.moment.timeout {
            println!(rt; "pulse {k} timeout")?;
        }
        if self.moment.zero & (before.zeros < MOST_LINES) {
            println!(rt; "pulse {k} zero")?;
        }
        if self.moment.second {
            println!(rt; "pulse {k} second {}", Number(self.time))?;
        }
        if self.moment.alarm {
            println!(rt; "pulse {k} alarm")?;
        }
        match self.moved {
            Some(level) if before.pins < MOST_LINES => {
                println!(rt; "pulse {k} pin {}", level.letter() as char)
            }
            _ => Ok(()),
        }
    }
}

pub(crate) fn print_pulses(rt: &impl Print, before: Clock, count: u16) -> io::Result<()> {
    let mut clock = before;
    let mut pin = before.pin();
    let mut counts = Counts::default();
    for k in 1..=count {
        let done = clock.step(Event::from(Kind::Pulses(1)));
        let pulse = Pulse {
            moment: moment_of(clock, done.clock),
            time: done.clock.hand.time,
            moved: (done.pin != pin).then_some(done.pin),
        };
        pulse.print(rt, k, counts)?;
        counts = counts.with(&pulse);
        pin = done.pin;
        clock = done.clock;
    }
    println!(rt;
        "counts {} {} {} {}",
        counts.seconds, counts.alarms, counts.zeros, counts.pins
    )
}
