// The events of the bus on a state's bytes: only the bytes that they can change are written. (rules 6.2 to 6.11)
ghost use Rattle.std.specs.Prelude.{◌≡◌};
ghost use Rattle.state_events.specs.Traffic.{done, started_in, stopped_in, latched_in, effected_in, heard_in, shown_in, renewed_in, read_in};

use crate::put::{put_at, put_bus, put_time};
use crate::written::write;
use bus::{Bus, Effect, next};
use control::ctr1;
use events::Answer;
use registers::bit_at;
use state_bytes::{alarm_of, at, bus_of, control_of, countdown_of, lock_of, rtcf_of, time_at};

// START. (rule 6.2)
pub(crate) fn start(s: &mut [u8])
    ensures { s.new ≡ started_in s.old }
{
    put_bus(s, bus_of(s).started());
}

// STOP: under ARST a transfer that read 0Fh clears both flags. (rules 6.10 and 6.11)
pub(crate) fn stop(s: &mut [u8])
    ensures { s.new ≡ stopped_in s.old }
{
    let alarm = alarm_of(s);
    let countdown = countdown_of(s);
    // ARST by the bit that it is in the chip.
    let keep = !(bit_at(control_of(s).ctr3, 7) & bus_of(s).marked());
    let flags = ctr1(
        lock_of(s),
        keep & alarm.flag,
        keep & countdown.flag,
        rtcf_of(s),
    );
    put_at(s, 0x0F, flags);
    put_bus(s, Bus::default());
}

// The seven bytes of the time, latched. (rules 6.3 and 6.9)
fn latch(s: &mut [u8])
    ensures { s.new ≡ latched_in s.old }
{
    put_time(s, 32, time_at(s, 0));
}

// What a byte does beside the bus. (rules 6.3 and 6.5)
fn put_effect(s: &mut [u8], effect: Effect, b: u8)
    ensures { s.new ≡ effected_in effect s.old b }
{
    match effect {
        Effect::None => {}
        Effect::Latch => latch(s),
        Effect::Write(a) => write(s, a, b),
    }
}

// A master's byte. (rules 6.3 to 6.6)
pub(crate) fn hear(s: &mut [u8], b: u8) -> Answer
    ensures { done result s.new ≡ heard_in s.old b }
{
    let heard = bus_of(s).heard(b);
    put_effect(s, heard.effect, b);
    put_bus(s, heard.bus);
    Answer::from(heard.ack)
}

// A register as a read on the bus sees it: the time comes from the latch. (rule 6.7)
fn shown(s: &[u8], a: u8) -> u8
    ensures { result ≡ shown_in s.now a }
{
    match a {
        0x00..=0x06 => at(s, 32 + a as usize),
        0x07..=0x1F => at(s, a as usize),
        _ => 0xFF,
    }
}

// A read at a whose pointer goes on to 00h latches anew. (rule 6.9)
fn renew(s: &mut [u8], a: u8)
    ensures { s.new ≡ renewed_in s.old a }
{
    if next(a) == 0x00 {
        latch(s);
    }
}

// A read: the byte at the pointer, and then what moves. (rules 6.7 to 6.9)
pub(crate) fn read(s: &mut [u8], ack: bool) -> Answer
    ensures { done result s.new ≡ read_in s.old ack }
{
    let read = bus_of(s).read(ack);
    let Some(a) = read.sent else {
        return Answer::Byte(0xFF);
    };
    let byte = shown(s, a);
    renew(s, a);
    put_bus(s, read.bus);
    Answer::Byte(byte)
}
