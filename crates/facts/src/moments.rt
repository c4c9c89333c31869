// What one pulse did, told from the states on both sides of it. (rule 11.6)
ghost use Rattle.std.specs.Prelude.{◌≡◌};
ghost use Rattle.facts.specs.Moments.{moment_of};

use bus::Phase;
use sd2068::Clock;

#[derive(Clone, Copy)]
pub struct Moment {
    pub timeout: bool,
    pub zero: bool,
    pub second: bool,
    pub alarm: bool,
}

// A second counter of 0 and a whole pin pulse are there right after what begins them, and at no other time. (rule 11.6)
#[tactic(auto, unfolding(crate::specs::Moments::moment_of))]
pub fn moment_of(before: Clock, after: Clock) -> Moment
    ensures { result ≡ moment_of before after }
{
    Moment {
        timeout: matches!(
            (before.bus.phase, after.bus.phase),
            (Phase::Open(..), Phase::Closed)
        ),
        zero: after.countdown.pulse == 8192,
        second: after.hand.counter == 0,
        alarm: after.alarm.pulse == 8192,
    }
}
