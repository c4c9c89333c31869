// The last second of each month of the century, in both hour modes.
use crate::digest::{mix_none, mix_time};
use crate::lines::{print_digest, print_range};
use calendar::time_at;
use dates::Date;
use fields::{HourMode, byte};
use std::io;

pub(crate) fn print_month_ends(rt: &impl Print) -> io::Result<()> {
    for line in 0..12 {
        print_line(rt, line)?;
    }
    Ok(())
}

fn print_line(rt: &impl Print, line: u8) -> io::Result<()> {
    let first = line as u32 * 100;
    let digest = digest_of_months(first, first + 100);
    print_range(rt, "month ends ", first, first + 99)?;
    print_digest(rt, digest)
}

fn digest_of_months(first: u32, end: u32) -> u32 {
    (first..end).fold(0, mix_month)
}

fn mix_month(d: u32, month: u32) -> u32 {
    let k = last_second(month);
    let weekday = (month % 7) as u8;
    let twelve = mix_end(d, k, HourMode::Twelve, weekday);
    mix_end(twelve, k, HourMode::TwentyFour, weekday)
}

// The time of second number k, and one second on. (rules 3.15 and 3.17)
fn mix_end(d: u32, k: u64, m: HourMode, weekday: u8) -> u32 {
    let Some(t) = time_at(k, m, weekday) else {
        return mix_none(d);
    };
    mix_time(mix_time(d, t), t.advanced())
}

// The second before the next month begins; before day 0 comes the century's last day.
fn last_second(month: u32) -> u64 {
    let last_day = (first_day(month as u64 + 1) % 36525 + 36524) % 36525;
    last_day * 86400 + 86399
}

// The day number on which a month begins; month 1,200 is month 0 again. (rule 3.13)
fn first_day(month: u64) -> u64 {
    let first = Date {
        day: 0x01,
        month: byte((month % 12 + 1) as u8),
        year: byte((month / 12 % 100) as u8),
    };
    first.number().unwrap_or(0)
}
