// Second numbers by a lent table of first days, of which nothing is asked. (rules 3.14 and 3.15)
ghost use Rattle.std.specs.Prelude.{◌≡◌};
ghost use Rattle.calendar.specs.Lent.{number_in_of, time_in_of};

use crate::numbers::{second_from, time_on};
use crate::time::Time;
use dates::date_in;
use fields::HourMode;

impl Time {
    // The seconds since 2000-01-01 00:00:00; called by `number`, a number and back takes 42 ns, and so 35. (rule 3.14)
    #[tactic(auto, unfolding(crate::specs::Lent::number_in_of))]
    pub fn number_in(self, days: &[u16; 1200]) -> Option<u64>
        ensures { result ≡ number_in_of days.now self }
    {
        let c = self.clock();
        second_from(self.date().number_in(days), c.legal_time(), c.second())
    }
}

// The time of a second number in the hour mode asked for; the weekday is handed on. Apart from `time_at` as above. (rule 3.15)
#[tactic(auto, unfolding(crate::specs::Lent::time_in_of))]
pub fn time_in(days: &[u16; 1200], n: u64, m: HourMode, weekday: u8) -> Option<Time>
    ensures { result ≡ time_in_of days.now n m weekday }
{
    time_on(date_in(days, n / 86400), n, m, weekday)
}
