// The level of the pin. (rules 5.11 to 5.14)
ghost use Rattle.std.specs.Prelude.{◌≡◌};
ghost use Rattle.control.specs.Pin.{letter_of};
ghost use Rattle.sd2068.specs.Pin.{pin_of};

use crate::clock::Clock;
use crate::controls::fs;
use control::{Level, bell, frequency};

impl Clock {
    // By INTS. (rule 5.11)
    #[tactic(auto, unfolding(crate::specs::Pin::pin_of))]
    pub fn pin(self) -> Level
        ensures { letter_of result ≡ pin_of self }
    {
        let c = self.control;
        match (c.ints1, c.ints0) {
            (false, false) => Level::High,
            (false, true) => bell(c.im, self.alarm.flag, c.intae, self.alarm.pulse),
            (true, false) => frequency(c.intfe, fs(c.ctr3), self.divider, self.hand.counter),
            (true, true) => bell(c.im, self.countdown.flag, c.intde, self.countdown.pulse),
        }
    }
}
