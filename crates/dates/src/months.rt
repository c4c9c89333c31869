// The lengths of the months. (rules 3.8 and 3.9)
ghost use Rattle.std.specs.Prelude.{◌≡◌};
ghost use Rattle.dates.specs.Months.{leap_of, last_day_of};

use fields::{Field, pick, value};

pub(crate) const MONTHS: Field = Field {
    first: 0x01,
    last: 0x12,
};

pub(crate) const YEARS: Field = Field {
    first: 0x00,
    last: 0x99,
};

// The number of the year counts, not its byte; an illegal year is not leap. (rule 3.8)
#[tactic(auto, unfolding(crate::specs::Months::leap_of))]
pub(crate) fn leap(year: u8) -> bool
    ensures { result ≡ leap_of year }
{
    let number = value(year);
    YEARS.legal(year) & (number % 4 == 0)
}

// The days of a month. (rules 3.2 and 3.9)
pub(crate) fn days(month: u8, year: u8) -> Field
    ensures { result ≡ record { first = 0x01; last = last_day_of month year } }
{
    Field {
        first: 0x01,
        last: last_day(month, year),
    }
}

// The last day of a month, as the field holds it; an illegal month has 31 days. (rule 3.9)
#[tactic(auto, unfolding(crate::specs::Months::last_day_of))]
fn last_day(month: u8, year: u8) -> u8
    ensures { result ≡ last_day_of month year }
{
    match month {
        0x02 => pick(leap(year), 0x29, 0x28),
        0x04 | 0x06 | 0x09 | 0x11 => 0x30,
        _ => 0x31,
    }
}
