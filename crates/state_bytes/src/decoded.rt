// The state that 61 bytes stand for, and which bytes stand for one. (rules 10.2 and 10.3)
ghost use Rattle.std.specs.Prelude.{◌≡◌};
ghost use Rattle.state_bytes.specs.Decoded.{hand_of, alarm_of, countdown_of, lock_of, control_of, rtcf_of, divider_of, bus_of, clock_of, plain_of};

use crate::phases::{phase_of, phase_well};
use crate::places::{at, bytes_at, long_at, time_at, word_at};
use alarm::Alarm;
use bus::{Bus, Transfer};
use control::{Control, Lock};
use countdown::Countdown;
use hand::Hand;
use registers::{bit_at, clear};
use sd2068::Clock;

pub fn hand_of(s: &[u8]) -> Hand
    ensures { result ≡ hand_of s.now }
{
    Hand {
        time: time_at(s, 0),
        counter: long_at(s, 49),
        trim: at(s, 0x12),
    }
}

pub fn alarm_of(s: &[u8]) -> Alarm
    ensures { result ≡ alarm_of s.now }
{
    Alarm {
        at: time_at(s, 7),
        enable: at(s, 0x0E),
        flag: bit_at(at(s, 0x0F), 5),
        pulse: word_at(s, 45),
    }
}

pub fn countdown_of(s: &[u8]) -> Countdown
    ensures { result ≡ countdown_of s.now }
{
    Countdown {
        count: at(s, 0x13),
        reload: at(s, 39),
        prescaler: long_at(s, 57),
        flag: bit_at(at(s, 0x0F), 4),
        pulse: word_at(s, 47),
    }
}

pub fn lock_of(s: &[u8]) -> Lock
    ensures { result ≡ lock_of s.now }
{
    Lock {
        wrtc1: bit_at(at(s, 0x10), 7),
        wrtc2: bit_at(at(s, 0x0F), 2),
        wrtc3: bit_at(at(s, 0x0F), 7),
    }
}

pub fn control_of(s: &[u8]) -> Control
    ensures { result ≡ control_of s.now }
{
    Control::from_bytes(at(s, 0x10), at(s, 0x11))
}

pub fn rtcf_of(s: &[u8]) -> bool
    ensures { result ≡ rtcf_of s.now }
{
    bit_at(at(s, 0x0F), 0)
}

pub(crate) fn divider_of(s: &[u8]) -> u32
    ensures { result ≡ divider_of s.now }
{
    long_at(s, 53)
}

pub fn bus_of(s: &[u8]) -> Bus
    ensures { result ≡ bus_of s.now }
{
    let transfer = Transfer {
        age: word_at(s, 43),
        marked: at(s, 42) == 1,
    };
    Bus {
        pointer: at(s, 40),
        phase: phase_of(at(s, 41), transfer),
    }
}

// The state, well formed or not, of bytes in any number, so by a name and not by `From`. (rule 10.2)
#[tactic(auto, unfolding(crate::specs::Decoded::clock_of))]
pub fn clock_of(s: &[u8]) -> Clock
    ensures { result ≡ clock_of s.now }
{
    Clock {
        hand: hand_of(s),
        alarm: alarm_of(s),
        countdown: countdown_of(s),
        lock: lock_of(s),
        control: control_of(s),
        rtcf: rtcf_of(s),
        ram: bytes_at(s, 20),
        latched: bytes_at(s, 32),
        divider: divider_of(s),
        bus: bus_of(s),
    }
}

// Whether what the state has no place for is as it is written: the fixed bits of 0Fh, and the phase. (rule 10.3)
#[tactic(auto, unfolding(crate::specs::Decoded::plain_of))]
pub fn plain(s: &[u8]) -> bool
    ensures { result ≡ plain_of s.now }
{
    clear(0x0F, at(s, 0x0F)) & phase_well(at(s, 41), at(s, 42), word_at(s, 43))
}
