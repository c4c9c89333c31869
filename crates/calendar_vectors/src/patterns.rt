// Patterns: seven bytes at random, most of them near a carry, legal or not.
use crate::digest::{mix_bool, mix_found, mix_number, mix_time};
use crate::draws::draw;
use crate::lines::{print_digest, print_figure, print_lines, print_range};
use calendar::Time;
use std::io;

// Eight bytes for each field of a time, about which its rules turn: last values, leap years, bytes just not legal.
const EDGES: [[u8; 8]; 7] = [
    [0x59, 0x59, 0x59, 0x00, 0x58, 0x5a, 0x60, 0xd9],
    [0x59, 0x59, 0x59, 0x00, 0x09, 0x5f, 0x60, 0xd9],
    [0xa3, 0x31, 0xa3, 0x31, 0x11, 0x29, 0xa4, 0x13],
    [0x00, 0x01, 0x02, 0x03, 0x04, 0x05, 0x06, 0x07],
    [0x28, 0x29, 0x30, 0x31, 0x28, 0x29, 0x00, 0x32],
    [0x02, 0x02, 0x04, 0x12, 0x01, 0x09, 0x13, 0x00],
    [0x00, 0x99, 0x01, 0x04, 0x10, 0x96, 0x9a, 0x14],
];

// A pattern, and the number drawn last: the seconds to go on.
#[derive(Clone, Copy)]
struct Pattern {
    time: Time,
    n: u32,
}

// What a line tells, and the number drawn last.
#[derive(Clone, Copy)]
struct Tally {
    digest: u32,
    numbered: u32,
    turned: u32,
    drawn: u32,
}

pub(crate) fn print_patterns(rt: &impl Print) -> io::Result<()> {
    print_lines(10, 2, |line, drawn| print_line(rt, line, drawn))
}

// The next line draws on from the number returned.
fn print_line(rt: &impl Print, line: u8, drawn: u32) -> io::Result<u32> {
    let first = line as u32 * 10000;
    let tally = tally_of_patterns(10000, drawn);
    print_range(rt, "patterns ", first, first + 9999)?;
    print_figure(rt, " numbered ", tally.numbered)?;
    print_figure(rt, " years turned ", tally.turned)?;
    print_digest(rt, tally.digest)?;
    Ok(tally.drawn)
}

fn tally_of_patterns(many: u32, drawn: u32) -> Tally {
    let start = Tally {
        digest: 0,
        numbered: 0,
        turned: 0,
        drawn,
    };
    (0..many).fold(start, |tally, _| tally.with_pattern())
}

impl Tally {
    fn with_pattern(self) -> Tally {
        let p = pattern_after(self.drawn);
        let t = p.time;
        let next = t.advanced();
        Tally {
            digest: mix_pattern(self.digest, t, p.n),
            numbered: count(self.numbered, t.number().is_some()),
            turned: count(self.turned, next.year != t.year),
            drawn: p.n,
        }
    }
}

// What of it is legal, its second number, one second on and n seconds on. (rules 3.14 to 3.17)
fn mix_pattern(d: u32, t: Time, n: u32) -> u32 {
    let to_clock = mix_bool(d, t.clock().legal_time());
    let to_date = mix_bool(to_clock, t.date().legal_date());
    let to_weekday = mix_bool(to_date, t.legal_weekday());
    let to_number = mix_number(to_weekday, t.number());
    let to_next = mix_time(to_number, t.advanced());
    mix_found(to_next, t.later(n as u64))
}

// One more where b holds; no count here comes near the wrap.
fn count(n: u32, b: bool) -> u32 {
    n.wrapping_add(u32::from(b))
}

// A draw for each field, and one for the seconds to go on.
fn pattern_after(drawn: u32) -> Pattern {
    let mut last = drawn;
    let bytes = EDGES.map(|edges| {
        last = draw(last);
        byte_of(edges, last)
    });
    Pattern {
        time: Time::from(bytes),
        n: draw(last),
    }
}

// One draw in four gives its own high byte, and the others one of the field's eight.
fn byte_of(edges: [u8; 8], x: u32) -> u8 {
    if x / 65536 % 4 == 0 {
        (x / 16777216) as u8
    } else {
        edges[(x / 16777216 % 8) as usize]
    }
}
