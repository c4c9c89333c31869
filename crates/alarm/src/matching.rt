// Which fields of the alarm match a time. (rules 2.3 and 5.2 to 5.4)
ghost use Rattle.std.specs.Prelude.{◌≡◌, ◌^◌};
ghost use Rattle.alarm.specs.Matching.{off, weekday_in, matches_of};

use calendar::Time;
use registers::bit_at;

// Whether bit w of the alarm's weekdays is set; there is none for 7. (rule 5.3)
#[tactic(auto, unfolding(crate::specs::Matching::weekday_in))]
fn weekday_in(days: u8, w: u8) -> bool
    ensures { result ≡ weekday_in days w }
{
    w < 7 && bit_at(days, w)
}

// Whether bit n of 0Eh is 0, so that its field does not count. (rule 2.3)
fn off(enable: u8, n: u8) -> bool
    ensures { result ≡ off (2 ^ n) enable }
{
    !bit_at(enable, n)
}

// Whether every enabled field matches, bytes compared as held. (rules 5.2 to 5.4)
#[tactic(auto, unfolding(crate::specs::Matching::matches_of))]
pub(crate) fn matches(at: Time, enable: u8, t: Time) -> bool
    ensures { result ≡ matches_of at enable t }
{
    let day_off = off(enable, 4);
    (off(enable, 0) | (t.seconds == at.seconds))
        & (off(enable, 1) | (t.minutes == at.minutes))
        & (off(enable, 2) | (t.hours % 64 == at.hours % 64))
        & (off(enable, 3) | !day_off | weekday_in(at.weekday, t.weekday))
        & (day_off | (t.day == at.day))
        & (off(enable, 5) | (t.month == at.month))
        & (off(enable, 6) | (t.year == at.year))
}
