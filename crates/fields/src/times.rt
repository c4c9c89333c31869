// The time of day. (rules 3.3 and 3.6)
ghost use Rattle.std.specs.Prelude.{◌≡◌};
ghost use Rattle.fields.specs.Times.{legal_time_of, second_of, next_time_of, midnight_of, time_of_day_of};

use crate::digits::{Field, byte, pick, value};
use crate::hours::{HourMode, first_hour, hour_byte, hour_number, mode, next_hour};

// Seconds and minutes. (rule 3.2)
const SIXTY: Field = Field {
    first: 0x00,
    last: 0x59,
};

#[derive(Clone, Copy)]
pub struct TimeOfDay {
    pub seconds: u8,
    pub minutes: u8,
    pub hours: u8,
}

impl TimeOfDay {
    // Whether all three fields are legal. (rule 3.6)
    #[tactic(auto, unfolding(crate::specs::Times::legal_time_of))]
    pub fn legal_time(self) -> bool
        ensures { result ≡ legal_time_of self }
    {
        SIXTY.legal(self.seconds) & SIXTY.legal(self.minutes) & (hour_number(self.hours) < 24)
    }

    // The whole seconds since midnight; of illegal bytes only the sum. (rule 3.6)
    #[tactic(auto, unfolding(crate::specs::Times::second_of))]
    pub fn second(self) -> u32
        ensures { result ≡ second_of self }
    {
        let h = u32::from(hour_number(self.hours));
        let m = u32::from(value(self.minutes));
        let s = u32::from(value(self.seconds));
        h * 3600 + m * 60 + s
    }

    // One second on: a field that has come to its first value carries into the next. (rule 3.3)
    #[tactic(auto, unfolding(crate::specs::Times::next_time_of))]
    pub fn next(self) -> TimeOfDay
        ensures { result ≡ next_time_of self }
    {
        let s = SIXTY.step(self.seconds);
        let m = SIXTY.step(self.minutes);
        let h = next_hour(self.hours);
        TimeOfDay {
            seconds: s,
            minutes: pick(s == 0x00, m, self.minutes),
            hours: pick((s == 0x00) & (m == 0x00), h, self.hours),
        }
    }

    // The first second of a day: where it is reached, the day carries. (rule 3.5)
    #[tactic(auto, unfolding(crate::specs::Times::midnight_of))]
    pub fn midnight(self) -> bool
        ensures { result ≡ midnight_of self }
    {
        (self.seconds == 0x00)
            & (self.minutes == 0x00)
            & (self.hours == first_hour(mode(self.hours)))
    }
}

// The time of day n seconds after a midnight, whole days left out. (rule 3.6)
#[tactic(auto, unfolding(crate::specs::Times::time_of_day_of))]
pub fn time_of_day(m: HourMode, n: u32) -> TimeOfDay
    ensures { result ≡ time_of_day_of m n }
{
    TimeOfDay {
        seconds: byte((n % 60) as u8),
        minutes: byte((n / 60 % 60) as u8),
        hours: hour_byte(m, (n / 3600 % 24) as u8),
    }
}
