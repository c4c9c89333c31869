// A digest: one number in which each figure and its place count.
use calendar::Time;

// The largest prime below 2^32.
const PRIME: u64 = 4294967291;

// The digest d with a figure more, which counts modulo the prime.
fn mix(d: u32, v: u64) -> u32 {
    ((d as u64 * 1000003 + v % PRIME + 1) % PRIME) as u32
}

// The figure that stands for none is one that no other can be.
pub(crate) fn mix_none(d: u32) -> u32 {
    mix(d, 4294967290)
}

pub(crate) fn mix_bool(d: u32, b: bool) -> u32 {
    mix(d, u64::from(b))
}

// The seven bytes, in the order of their registers. (rule 2.1)
pub(crate) fn mix_time(d: u32, t: Time) -> u32 {
    <[u8; 7]>::from(t)
        .iter()
        .fold(d, |to_byte, b| mix(to_byte, u64::from(*b)))
}

pub(crate) fn mix_number(d: u32, n: Option<u64>) -> u32 {
    n.map_or(mix_none(d), |k| mix(d, k))
}

pub(crate) fn mix_found(d: u32, f: Option<Time>) -> u32 {
    f.map_or(mix_none(d), |t| mix_time(d, t))
}
