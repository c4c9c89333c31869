// The weekday. (rules 3.7 and 3.16)
ghost use Rattle.std.specs.Prelude.{◌≡◌};
ghost use Rattle.calendar.specs.Weekdays.{next_weekday_of, weekday_on_of};

// The weekday of the next day; the pointer of a bus turns so too, but at another number and to another start.
pub(crate) fn next_weekday(w: u8) -> u8
    ensures { result ≡ next_weekday_of w }
{
    if w < 6 { w + 1 } else { 0 }
}

// The weekday after any number of days; an illegal one counts as 6 once a day has passed.
#[tactic(auto, unfolding(crate::specs::Weekdays::weekday_on_of))]
pub(crate) fn weekday_on(w: u8, days: u64) -> u8
    ensures { result ≡ weekday_on_of w days }
{
    if days == 0 {
        return w;
    }
    ((u64::from(w.min(6)) + days % 7) % 7) as u8
}
