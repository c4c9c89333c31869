// Dates and day numbers by a lent table of first days, of which nothing is asked. (rules 3.12 and 3.13)
ghost use Rattle.std.specs.Prelude.{◌≡◌};
ghost use Rattle.dates.specs.Lent.{day_number_in_of, month_by, date_in_of};

use crate::date::{Date, dated, day_from};
use crate::table::guess;

impl Date {
    // The days since 2000-01-01.
    #[tactic(auto, using(crate::proofs::DateLaws::legal_small), unfolding(crate::specs::Lent::day_number_in_of))]
    pub fn number_in(self, days: &[u16; 1200]) -> Option<u64>
        ensures { result ≡ day_number_in_of days.now self }
    {
        if self.legal_date() {
            let k = self.month_number();
            Some(day_from(days[k], self.day))
        } else {
            None
        }
    }
}

// The date of a day number.
#[tactic(auto, unfolding(crate::specs::Lent::date_in_of))]
pub fn date_in(days: &[u16; 1200], n: u64) -> Option<Date>
    ensures { result ≡ date_in_of days.now n }
{
    if n < 36525 {
        let e = guess(n);
        let k = month_by(n, e, days[e]);
        Some(dated(n, k, days[k]))
    } else {
        None
    }
}

// The guessed month, or the one before it where the guessed one begins past day n.
fn month_by(n: u64, e: usize, first: u16) -> usize
    ensures { result ≡ month_by n e first }
{
    if u64::from(first) <= n {
        e
    } else {
        e.saturating_sub(1)
    }
}
