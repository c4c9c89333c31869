// The 61 bytes of a state. (rule 10.2)
ghost use Rattle.std.specs.Prelude.{◌≡◌};
ghost use Rattle.state_bytes.specs.Encoded.{bytes_of};

use crate::phases::{age_in, mark_in, number_in};
use control::{ctr1, ctr2};
use sd2068::Clock;

// The state, well formed or not: a line for each byte, as the rule lists them, by the name of its definition. (rule 10.2)
#[tactic(auto, unfolding(crate::specs::Encoded::bytes_of))]
pub fn bytes_of(c: Clock) -> [u8; 61]
    ensures { result ≡ bytes_of c }
{
    let hand = c.hand;
    let time = hand.time;
    let alarm = c.alarm;
    let at = alarm.at;
    let countdown = c.countdown;
    let control = c.control;
    let ram = c.ram;
    let latched = c.latched;
    let bus = c.bus;
    let phase = bus.phase;
    let age = age_in(phase).to_le_bytes();
    let alarm_pulse = alarm.pulse.to_le_bytes();
    let countdown_pulse = countdown.pulse.to_le_bytes();
    let counter = hand.counter.to_le_bytes();
    let divider = c.divider.to_le_bytes();
    let prescaler = countdown.prescaler.to_le_bytes();
    let ctr1 = ctr1(c.lock, alarm.flag, countdown.flag, c.rtcf);
    let ctr2 = ctr2(c.lock, control);
    [
        time.seconds,
        time.minutes,
        time.hours,
        time.weekday,
        time.day,
        time.month,
        time.year,
        at.seconds,
        at.minutes,
        at.hours,
        at.weekday,
        at.day,
        at.month,
        at.year,
        alarm.enable,
        ctr1,
        ctr2,
        control.ctr3,
        hand.trim,
        countdown.count,
        ram[0],
        ram[1],
        ram[2],
        ram[3],
        ram[4],
        ram[5],
        ram[6],
        ram[7],
        ram[8],
        ram[9],
        ram[10],
        ram[11],
        latched[0],
        latched[1],
        latched[2],
        latched[3],
        latched[4],
        latched[5],
        latched[6],
        countdown.reload,
        bus.pointer,
        number_in(phase),
        mark_in(phase),
        age[0],
        age[1],
        alarm_pulse[0],
        alarm_pulse[1],
        countdown_pulse[0],
        countdown_pulse[1],
        counter[0],
        counter[1],
        counter[2],
        counter[3],
        divider[0],
        divider[1],
        divider[2],
        divider[3],
        prescaler[0],
        prescaler[1],
        prescaler[2],
        prescaler[3],
    ]
}
