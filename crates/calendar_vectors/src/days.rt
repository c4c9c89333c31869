// A second of each day of the century, in both hour modes.
use crate::digest::{mix_found, mix_none, mix_number, mix_time};
use crate::draws::draw;
use crate::lines::{print_digest, print_lines, print_range};
use calendar::time_at;
use fields::HourMode;
use std::io;

// A digest, and the number drawn last.
#[derive(Clone, Copy)]
struct Run {
    digest: u32,
    drawn: u32,
}

pub(crate) fn print_dates(rt: &impl Print) -> io::Result<()> {
    print_lines(25, 1, |line, drawn| print_line(rt, line, drawn))
}

// A line has four years, one of them leap; the next line draws on from the number returned.
fn print_line(rt: &impl Print, line: u8, drawn: u32) -> io::Result<u32> {
    let first = line as u32 * 1461;
    let run = run_of_days(first, first + 1461, drawn);
    print_range(rt, "dates ", first, first + 1460)?;
    print_digest(rt, run.digest)?;
    Ok(run.drawn)
}

fn run_of_days(first: u32, end: u32, drawn: u32) -> Run {
    (first..end).fold(Run { digest: 0, drawn }, |run, day| run.with_day(day))
}

impl Run {
    // Every eighth day has the illegal weekday 7.
    fn with_day(self, day: u32) -> Run {
        let x = draw(self.drawn);
        let n = draw(x);
        let k = day as u64 * 86400 + (x / 256 % 86400) as u64;
        let weekday = (day % 8) as u8;
        let twelve = mix_second(self.digest, k, HourMode::Twelve, weekday, n);
        Run {
            digest: mix_second(twelve, k, HourMode::TwentyFour, weekday, n),
            drawn: n,
        }
    }
}

// The time of second number k, its number again, one second on and n seconds on. (rules 3.14 to 3.17)
fn mix_second(d: u32, k: u64, m: HourMode, weekday: u8, n: u32) -> u32 {
    let Some(t) = time_at(k, m, weekday) else {
        return mix_none(d);
    };
    let to_time = mix_time(d, t);
    let to_number = mix_number(to_time, t.number());
    let to_next = mix_time(to_number, t.advanced());
    mix_found(to_next, t.later(n as u64))
}
