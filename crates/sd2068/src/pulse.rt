// One pulse, stage by stage, and many. (rules 4.5 to 4.7)
ghost use Rattle.std.specs.Prelude.{◌≡◌};
ghost use Rattle.sd2068.specs.Pulse.{aged_of, turned_by_of, divided_of, pin_pulsed_of, counted_of, advanced_of, rung_of, pulse_of, within_of, drifted_of, pulses_of};

use crate::clock::Clock;
use crate::controls::tds;
use calendar::Time;

// The free divider n pulses on: it wraps after 524,287. (rule 4.6)
fn turned_by(divider: u32, n: u32) -> u32
    ensures { result ≡ turned_by_of divider n }
{
    ((divider as u64 + n as u64) % 524288) as u32
}

impl Clock {
    // Transfer age. (rule 6.12)
    fn aged(mut self) -> Clock
        ensures { result ≡ aged_of self }
    {
        self.bus = self.bus.older(1);
        self
    }

    // The free divider. (rule 4.6)
    fn divided(mut self) -> Clock
        ensures { result ≡ divided_of self }
    {
        self.divider = turned_by(self.divider, 1);
        self
    }

    // Pin pulses. (rule 5.6)
    fn pin_pulsed(mut self) -> Clock
        ensures { result ≡ pin_pulsed_of self }
    {
        self.alarm = self.alarm.lessened(1);
        self.countdown = self.countdown.lessened(1);
        self
    }

    // Countdown. (rules 5.7 to 5.9)
    fn counted(mut self) -> Clock
        ensures { result ≡ counted_of self }
    {
        let tds = tds(self.control.ctr3);
        self.countdown = self.countdown.counted(self.control.intde, tds);
        self
    }

    // Calendar. (rule 4.1)
    fn advanced(mut self) -> Clock
        ensures { result ≡ advanced_of self }
    {
        self.hand = self.hand.ticked();
        self
    }

    // Alarm, with the time just before the advance: the second counter is 0 right after it, and only then. (rule 5.1)
    fn rung(mut self, before: Time) -> Clock
        ensures { result ≡ rung_of before self }
    {
        let asked = (self.hand.counter == 0) & self.control.intae;
        self.alarm = self.alarm.rung(before, self.hand.time, asked);
        self
    }

    // One pulse, in this order. (rule 4.5)
    #[tactic(auto, unfolding(crate::specs::Pulse::pulse_of))]
    fn pulse(self) -> Clock
        ensures { result ≡ pulse_of self }
    {
        let ready = self.aged().divided().pin_pulsed().counted();
        let before = ready.hand.time;
        ready.advanced().rung(before)
    }

    // Of the next n pulses, as many as only count: they end no second and make no tick. (rules 4.1 and 5.7)
    fn within(self, n: u32) -> u32
        ensures { result ≡ within_of self n }
    {
        let tds = tds(self.control.ctr3);
        let second = self.hand.within(n);
        self.countdown.within(self.control.intde, tds, second)
    }

    // n pulses that only count, at once. (rule 4.7)
    #[tactic(auto, unfolding(crate::specs::Pulse::drifted_of))]
    fn drifted(mut self, n: u32) -> Clock
        ensures { result ≡ drifted_of self n }
    {
        self.bus = self.bus.older(n);
        self.divider = turned_by(self.divider, n);
        self.alarm = self.alarm.lessened(n);
        self.countdown = self.countdown.drifted(self.control.intde, n);
        self.hand = self.hand.drifted(n);
        self
    }

    // n pulses: as many as only count at once, then the next by its stages, so that no `for` goes over them. (rule 4.7)
    #[tactic(auto, using(crate::proofs::DriftLaws::within_asked, crate::proofs::DriftLaws::drifts_first), unfolding(calendar::specs::Repeat::times))]
    pub(crate) fn pulses(self, n: u16) -> Clock
        ensures { result ≡ pulses_of self n }
    {
        let mut c = self;
        let mut left = n as u32;
        while 0 < left {
            let within = c.within(left - 1);
            c = c.drifted(within).pulse();
            left = left - 1 - within;
        }
        c
    }
}
