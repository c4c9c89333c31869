// A byte written to a register of a state's bytes: only the bytes that it can change are written. (rules 2.7 and 7.2)
ghost use Rattle.std.specs.Prelude.{◌≡◌};
ghost use Rattle.state_events.specs.Written.{locked_over, time_over, controls_over, stored_over, write_in};

use crate::put::{put_at, put_countdown, put_long};
use control::{Lock, ctr1, ctr2};
use registers::kept;
use state_bytes::{alarm_of, control_of, countdown_of, hand_of, lock_of, rtcf_of};

// The lock alone, whose bits stand in 0Fh and 10h. (rule 7.2)
fn put_lock(s: &mut [u8], lock: Lock)
    ensures { s.new ≡ locked_over s.old s.old lock }
{
    let alarm = alarm_of(s);
    let countdown = countdown_of(s);
    let first = ctr1(lock, alarm.flag, countdown.flag, rtcf_of(s));
    let second = ctr2(lock, control_of(s));
    put_at(s, 0x0F, first);
    put_at(s, 0x10, second);
}

// A byte stored at 00h to 06h: the second may begin anew. (rule 2.7)
fn store_time(s: &mut [u8], a: u8, b: u8)
    ensures { s.new ≡ time_over s.old s.old a b }
{
    let hand = hand_of(s).stored(a, b);
    put_at(s, a as usize, kept(a, b));
    put_long(s, 49, hand.counter);
}

// A byte stored at 0Eh to 13h: each group takes it. (rules 2.7 and 2.8)
fn store_controls(s: &mut [u8], a: u8, b: u8)
    ensures { s.new ≡ controls_over s.old s.old a b }
{
    let hand = hand_of(s).stored(a, b);
    let alarm = alarm_of(s).stored(a, b);
    let countdown = countdown_of(s).stored(a, b);
    let lock = lock_of(s).written(a, b);
    let control = control_of(s).stored(a, b);
    let first = ctr1(lock, alarm.flag, countdown.flag, rtcf_of(s));
    let second = ctr2(lock, control);
    put_at(s, 0x0E, alarm.enable);
    put_at(s, 0x0F, first);
    put_at(s, 0x10, second);
    put_at(s, 0x11, control.ctr3);
    put_at(s, 0x12, hand.trim);
    put_countdown(s, countdown);
}

// A byte stored at a register: most keep it for themselves. (rules 2.2 and 2.7)
fn store(s: &mut [u8], a: u8, b: u8)
    ensures { s.new ≡ stored_over s.old s.old a b }
{
    match a {
        0x00..=0x06 => store_time(s, a, b),
        0x07..=0x0D => put_at(s, a as usize, kept(a, b)),
        0x0E..=0x13 => store_controls(s, a, b),
        _ => put_at(s, a as usize, b),
    }
}

// The lock bits go by the byte alone, the rest takes it if it is stored. (rule 7.2)
#[tactic(auto, unfolding(crate::specs::Written::write_in))]
pub(crate) fn write(s: &mut [u8], a: u8, b: u8)
    ensures { s.new ≡ write_in s.old a b }
{
    let before = lock_of(s);
    let after = before.written(a, b);
    if before.is_open() & after.is_open() {
        store(s, a, b);
    } else {
        put_lock(s, after);
    }
}
