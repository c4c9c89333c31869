// Parts of a state written over their bytes: past the end nothing is written. (rules 10.1 and 10.2)
ghost use Rattle.std.specs.Prelude.{◌≡◌, ◌≤◌, length, set};
ghost use Rattle.state_events.specs.Put.{put_bytes, put_time, put_word, put_long, put_countdown, put_bus};

use bus::Bus;
use calendar::Time;
use countdown::Countdown;
use state_bytes::{age_in, mark_in, number_in};

// One byte at its place; by `get_mut` this stayed unproved.
pub(crate) fn put_at(s: &mut [u8], i: usize, b: u8)
    ensures { s.new ≡ set s.old i b }
{
    if i < s.len() {
        s[i] = b;
    }
}

// One behind another from place i on; seven are the most that are written so.
fn put_bytes(s: &mut [u8], i: u8, bytes: &[u8])
    requires { length bytes.now ≤ 7 }
    ensures { s.new ≡ put_bytes s.old i 0 bytes.now }
{
    for (k, byte) in bytes.iter().enumerate() {
        put_at(s, i as usize + k, *byte);
    }
}

pub(crate) fn put_time(s: &mut [u8], i: u8, t: Time)
    ensures { s.new ≡ put_time s.old i t }
{
    put_bytes(s, i, &<[u8; 7]>::from(t));
}

fn put_word(s: &mut [u8], i: u8, v: u32)
    ensures { s.new ≡ put_word s.old i v }
{
    put_bytes(s, i, &v.to_le_bytes()[..2]);
}

pub(crate) fn put_long(s: &mut [u8], i: u8, v: u32)
    ensures { s.new ≡ put_long s.old i v }
{
    put_bytes(s, i, &v.to_le_bytes());
}

// But for the flag, which stands in 0Fh beside others.
pub(crate) fn put_countdown(s: &mut [u8], countdown: Countdown)
    ensures { s.new ≡ put_countdown s.old countdown }
{
    put_at(s, 0x13, countdown.count);
    put_at(s, 39, countdown.reload);
    put_word(s, 47, countdown.pulse);
    put_long(s, 57, countdown.prescaler);
}

pub(crate) fn put_bus(s: &mut [u8], bus: Bus)
    ensures { s.new ≡ put_bus s.old bus }
{
    let phase = bus.phase;
    put_at(s, 40, bus.pointer);
    put_at(s, 41, number_in(phase));
    put_at(s, 42, mark_in(phase));
    put_word(s, 43, age_in(phase));
}
