// What a state's bytes are looked at for: whether they are a state's, and its pin. (rules 10.3 and 10.6)
ghost use Rattle.std.specs.Prelude.{◌≡◌};
ghost use Rattle.control.specs.Pin.{letter_of};
ghost use Rattle.sd2068.specs.Pin.{pin_of};
ghost use Rattle.state_bytes.specs.Decoded.{clock_of, is_state};

use crate::decoded::{
    alarm_of, bus_of, control_of, countdown_of, divider_of, hand_of, lock_of, plain,
};
use crate::places::time_at;
use control::{Level, bell, frequency};
use registers::clear_time;

// Each group by itself, so that no state is put together; in this order and by these branches, for speed. (rule 10.3)
#[tactic(auto, unfolding(crate::specs::Decoded::is_state, crate::specs::Decoded::clock_of, sd2068::specs::WellFormed::well_formed_of))]
pub fn is_state(s: &[u8]) -> bool
    ensures { result ≡ is_state s.now }
{
    if !plain(s) {
        return false;
    }
    if !bus_of(s).well_formed() {
        return false;
    }
    if !countdown_of(s).well_formed() {
        return false;
    }
    hand_of(s).well_formed()
        & alarm_of(s).well_formed()
        & lock_of(s).well_formed()
        & control_of(s).well_formed()
        & clear_time(time_at(s, 32))
        & (divider_of(s) <= 524287)
}

// By INTS, as `Clock::pin`, but from the groups alone that it names: no other is decoded, for speed. (rule 5.11)
#[tactic(auto, unfolding(crate::specs::Decoded::clock_of, sd2068::specs::Pin::pin_of))]
pub fn pin_of(s: &[u8]) -> Level
    ensures { letter_of result ≡ pin_of (clock_of s.now) }
{
    let c = control_of(s);
    match (c.ints1, c.ints0) {
        (false, false) => Level::High,
        (false, true) => {
            let alarm = alarm_of(s);
            bell(c.im, alarm.flag, c.intae, alarm.pulse)
        }
        // FS by the operator that it is in the chip.
        (true, false) => frequency(c.intfe, c.ctr3 % 0x10, divider_of(s), hand_of(s).counter),
        (true, true) => {
            let countdown = countdown_of(s);
            bell(c.im, countdown.flag, c.intde, countdown.pulse)
        }
    }
}
