// A time: seven bytes in the order of their registers, any values. (rules 2.1, 3.3 and 3.17)
ghost use Rattle.std.specs.Prelude.{◌≡◌};
ghost use Rattle.calendar.specs.Bytes.{bytes_of, time_of};
ghost use Rattle.calendar.specs.Weekdays.{legal_weekday_of};
ghost use Rattle.calendar.specs.Advance.{clock_of, date_of, advance_of};

use crate::weekdays::next_weekday;
use dates::Date;
use fields::{TimeOfDay, pick};

#[derive(Clone, Copy, Default)]
pub struct Time {
    pub seconds: u8,
    pub minutes: u8,
    pub hours: u8,
    pub weekday: u8,
    pub day: u8,
    pub month: u8,
    pub year: u8,
}

impl Time {
    // Its time of day, which tells whether it is legal. (rule 3.6)
    pub fn clock(self) -> TimeOfDay
        ensures { result ≡ clock_of self }
    {
        TimeOfDay {
            seconds: self.seconds,
            minutes: self.minutes,
            hours: self.hours,
        }
    }

    // Its date, which tells whether it is legal. (rule 3.11)
    pub fn date(self) -> Date
        ensures { result ≡ date_of self }
    {
        Date {
            day: self.day,
            month: self.month,
            year: self.year,
        }
    }

    // The weekday is judged by itself. (rule 3.7)
    pub fn legal_weekday(self) -> bool
        ensures { result ≡ legal_weekday_of self.weekday }
    {
        self.weekday < 7
    }

    // One second on: at midnight the weekday and the date step. (rule 3.17)
    #[tactic(auto, unfolding(crate::specs::Advance::advance_of))]
    pub fn advanced(self) -> Time
        ensures { result ≡ advance_of self }
    {
        let clock = self.clock().next();
        let date = self.date().next();
        let turns = clock.midnight();
        Time {
            seconds: clock.seconds,
            minutes: clock.minutes,
            hours: clock.hours,
            weekday: pick(turns, next_weekday(self.weekday), self.weekday),
            day: pick(turns, date.day, self.day),
            month: pick(turns, date.month, self.month),
            year: pick(turns, date.year, self.year),
        }
    }
}

// The seven bytes in the order of their registers. (rule 2.1)
impl From<Time> for [u8; 7] {
    ghost from_gives = { λ t b. b ≡ bytes_of t };

    fn from(t: Time) -> [u8; 7] {
        [
            t.seconds, t.minutes, t.hours, t.weekday, t.day, t.month, t.year,
        ]
    }
}

// Any seven bytes are a time. (rule 2.1)
impl From<[u8; 7]> for Time {
    ghost from_gives = { λ b t. t ≡ time_of b };

    fn from(b: [u8; 7]) -> Time {
        let [seconds, minutes, hours, weekday, day, month, year] = b;
        Time {
            seconds,
            minutes,
            hours,
            weekday,
            day,
            month,
            year,
        }
    }
}
