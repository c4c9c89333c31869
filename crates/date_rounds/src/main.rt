// Turns drawn second numbers into times and back, each by itself or all by one table, and prints a digest of all of it.
#![tactic(auto)]

use calendar::{Time, time_at, time_in};
use dates::first_days;
use fields::HourMode;
use input::read_full;
use std::io;

// Where one round ends: the number last drawn, and the digest.
#[derive(Clone, Copy)]
struct Round {
    drawn: u32,
    digest: u32,
}

fn mode_of(drawn: u32) -> HourMode {
    if drawn / 65536 % 2 == 1 {
        HourMode::TwentyFour
    } else {
        HourMode::Twelve
    }
}

// With other numbers than calendar_vectors, whose digests are held to figures from outside.
fn mix(digest: u32, figure: u64) -> u32 {
    ((digest as u64 * 31 + figure % 4294967296) % 4294967296) as u32
}

// A time, and the number that it has.
fn mix_both(digest: u32, t: Time, number: u64) -> u32 {
    let to_time = <[u8; 7]>::from(t)
        .iter()
        .fold(digest, |d, b| mix(d, u64::from(*b)));
    mix(to_time, number)
}

// As calendar_vectors draws; a library would be longer than the line.
fn draw(drawn: u32) -> u32 {
    ((drawn as u64 * 1664525 + 1013904223) % 4294967296) as u32
}

impl Round {
    // A number that does not come back changes no digest.
    fn next<F: Fn(u64, HourMode) -> Option<(Time, u64)>>(self, there_and_back: &F) -> Round
        requires { F.IsAlwaysCallable there_and_back.now }
    {
        let drawn = draw(self.drawn);
        let digest = match there_and_back(drawn as u64 % 3155760000, mode_of(drawn)) {
            Some((t, number)) => mix_both(self.digest, t, number),
            None => self.digest,
        };
        Round { drawn, digest }
    }
}

fn digest_of<F: Fn(u64, HourMode) -> Option<(Time, u64)>>(
    seed: u32,
    count: u32,
    there_and_back: F,
) -> u32
    requires { F.IsAlwaysCallable there_and_back }
{
    let mut round = Round {
        drawn: seed,
        digest: 0,
    };
    for _ in 0..count {
        round = round.next(&there_and_back);
    }
    round.digest
}

fn answer(rt: &impl Print, seed: u32, count: u32, by_table: bool) -> io::Result<()> {
    let digest = if by_table {
        let days = first_days();
        digest_of(seed, count, |n, m| {
            let t = time_in(&days, n, m, 0)?;
            Some((t, t.number_in(&days)?))
        })
    } else {
        digest_of(seed, count, |n, m| {
            let t = time_at(n, m, 0)?;
            Some((t, t.number()?))
        })
    };
    println!(rt; "{digest}")
}

// Asked once or twice: a seed and a count of four bytes each, and a byte that is 1 where one table is to serve for all.
fn main(rt: HostRuntime) -> io::Result<()> {
    let mut b = [0u8; 18];
    let got = read_full(&mut rt.stdin(), &mut b)?;
    for &[s0, s1, s2, s3, c0, c1, c2, c3, way] in b[..got].as_chunks::<9>().0 {
        let seed = u32::from_le_bytes([s0, s1, s2, s3]);
        let count = u32::from_le_bytes([c0, c1, c2, c3]);
        answer(&rt, seed, count, way == 1)?;
    }
    Ok(())
}
