// Which states may be handed in. (rule 8.2)
ghost use Rattle.std.specs.Prelude.{◌≡◌};
ghost use Rattle.sd2068.specs.WellFormed.{well_formed_of};

use crate::clock::Clock;
use calendar::Time;
use registers::clear_time;

impl Clock {
    // Whether every part is within the bounds of refusal 1. (rule 8.2)
    #[tactic(auto, unfolding(crate::specs::WellFormed::well_formed_of))]
    pub fn well_formed(self) -> bool
        ensures { result ≡ well_formed_of self }
    {
        self.hand.well_formed()
            & self.alarm.well_formed()
            & self.countdown.well_formed()
            & self.lock.well_formed()
            & self.control.well_formed()
            & clear_time(Time::from(self.latched))
            & (self.divider <= 524287)
            & self.bus.well_formed()
    }
}
