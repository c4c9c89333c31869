// Second numbers, and a time any number of seconds on. (rules 3.14 to 3.16)
ghost use Rattle.std.specs.Prelude.{◌≡◌};
ghost use Rattle.calendar.specs.Numbers.{number_of, time_at_of, days_on_of, later_of};
ghost use Rattle.calendar.specs.Lent.{second_from, time_on};

use crate::time::Time;
use crate::weekdays::weekday_on;
use dates::{Date, date_at};
use fields::{HourMode, mode, time_of_day};

// The seconds of a century: 36,525 days. (rule 3.12)
const CENTURY: u64 = 3155760000;

impl Time {
    // The seconds since 2000-01-01 00:00:00; an illegal date or time of day has none. (rule 3.14)
    #[tactic(auto, using(crate::proofs::LentLaws::second_from_lem))]
    pub fn number(self) -> Option<u64>
        ensures { result ≡ number_of self }
    {
        let c = self.clock();
        second_from(self.date().number(), c.legal_time(), c.second())
    }

    // The time n seconds on; a time without a number has none. (rule 3.16)
    #[tactic(auto, using(crate::proofs::MomentLaws::number_small, crate::proofs::MomentLaws::time_absent, crate::proofs::MomentLaws::time_is), unfolding(crate::specs::Numbers::later_of))]
    pub fn later(self, n: u64) -> Option<Time>
        ensures { result ≡ later_of self n }
    {
        let k = self.number()?;
        let t = time_at((k + n % CENTURY) % CENTURY, mode(self.hours), self.weekday)?;
        Some(t.days_on((k % 86400 + n % 86400) / 86400 + n / 86400))
    }

    // The same time with its weekday some days on.
    fn days_on(mut self, days: u64) -> Time
        ensures { result ≡ days_on_of self days }
    {
        self.weekday = weekday_on(self.weekday, days);
        self
    }
}

// The time of a second number in the hour mode asked for, none past the century; the weekday is handed on. (rule 3.15)
#[tactic(auto, using(crate::proofs::LentLaws::time_on_lem))]
pub fn time_at(n: u64, m: HourMode, weekday: u8) -> Option<Time>
    ensures { result ≡ time_at_of n m weekday }
{
    time_on(date_at(n / 86400), n, m, weekday)
}

// The second number from a day number and a second of the day, if legal; a lent table may name a day past the century.
pub(crate) fn second_from(day: Option<u64>, legal: bool, second: u32) -> Option<u64>
    ensures { result ≡ second_from day legal second }
{
    // A second and whether it is legal, and no time of day: so the compiler puts this into both its callers.
    let d = day?;
    // One test in the other: joined by && a number and back takes 301 instructions, and so 270.
    if d < 36525 {
        if legal {
            return Some(d * 86400 + u64::from(second));
        }
    }
    None
}

// The time on a date, if any, n seconds after a midnight, whole days left out; in a struct n, m and weekday would say no more.
pub(crate) fn time_on(found: Option<Date>, n: u64, m: HourMode, weekday: u8) -> Option<Time>
    ensures { result ≡ time_on found n m weekday }
{
    let d = found?;
    let c = time_of_day(m, (n % 86400) as u32);
    Some(Time {
        seconds: c.seconds,
        minutes: c.minutes,
        hours: c.hours,
        weekday,
        day: d.day,
        month: d.month,
        year: d.year,
    })
}
