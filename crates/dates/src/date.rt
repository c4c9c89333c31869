// Dates and their day numbers. (rules 3.3 and 3.10 to 3.13)
ghost use Rattle.std.specs.Prelude.{◌≡◌, ◌+◌, ◌-◌, ◌<◌, min};
ghost use Rattle.dates.specs.Dates.{legal_date_of, next_date_of, month_number_of, day_number_of, date_at_of};
ghost use Rattle.dates.specs.Lent.{day_from, date_from};

use crate::lent::date_in;
use crate::months::{MONTHS, YEARS, days};
use crate::table::FIRST_DAYS;
use fields::{byte, pick, value};

#[derive(Clone, Copy)]
pub struct Date {
    pub day: u8,
    pub month: u8,
    pub year: u8,
}

impl Date {
    // Whether all three fields are legal, the day in its month. (rule 3.11)
    #[tactic(auto, unfolding(crate::specs::Dates::legal_date_of))]
    pub fn legal_date(self) -> bool
        ensures { result ≡ legal_date_of self }
    {
        days(self.month, self.year).legal(self.day)
            & MONTHS.legal(self.month)
            & YEARS.legal(self.year)
    }

    // One day on: the day is judged by month and year as they are held. (rule 3.10)
    #[tactic(auto, unfolding(crate::specs::Dates::next_date_of))]
    pub fn next(self) -> Date
        ensures { result ≡ next_date_of self }
    {
        // Held before month and year move, which would judge it otherwise.
        let held = self.day;
        let d = days(self.month, self.year).step(held);
        let m = MONTHS.step(self.month);
        let y = YEARS.step(self.year);
        Date {
            day: d,
            month: pick(d == 0x01, m, self.month),
            year: pick((d == 0x01) & (m == 0x01), y, self.year),
        }
    }

    // The days since 2000-01-01; an illegal date has none. (rules 3.12 and 3.13)
    #[tactic(auto, using(crate::proofs::TableLaws::table_number))]
    pub fn number(self) -> Option<u64>
        ensures { result ≡ day_number_of self }
    {
        self.number_in(&FIRST_DAYS)
    }

    // The number of its month, counted from January 2000.
    pub(crate) fn month_number(self) -> usize
        ensures { result ≡ month_number_of self }
    {
        let y = usize::from(value(self.year));
        let m = usize::from(value(self.month));
        y * 12 + m.saturating_sub(1)
    }
}

// The day number of a day in the month that begins on day first.
pub(crate) fn day_from(first: u16, day: u8) -> u64
    ensures { result ≡ day_from first day }
{
    u64::from(first) + u64::from(value(day).saturating_sub(1))
}

// The date of a day number; past the century there is none. (rules 3.12 and 3.13)
#[tactic(auto, using(crate::proofs::TableLaws::table_date))]
pub fn date_at(n: u64) -> Option<Date>
    ensures { result ≡ date_at_of n }
{
    date_in(&FIRST_DAYS, n)
}

// Day n in month k, which begins on day first.
pub(crate) fn dated(n: u64, k: usize, first: u16) -> Date
    requires { k < 1200 }
    ensures { result ≡ date_from n k first }
{
    Date {
        day: byte(day_of_month(n, first)),
        month: byte((k % 12 + 1) as u8),
        year: byte((k / 12) as u8),
    }
}

// From 1 to 31, whatever a lent table says.
fn day_of_month(n: u64, first: u16) -> u8
    ensures { result ≡ min (n - first) 30 + 1 }
{
    n.saturating_sub(u64::from(first)).min(30) as u8 + 1
}
