// The events of the bus. (rules 6.2 to 6.11)
ghost use Rattle.std.specs.Prelude.{◌≡◌};
ghost use Rattle.sd2068.specs.Transfer.{started_of, clears_of, stopped_of, latched_of, effected_by, byte_of, renewed_of, read_of};

use crate::answers::Answered;
use crate::clock::Clock;
use crate::controls::arst;
use bus::{Bus, Effect, next};
use events::Answer;

impl Clock {
    // START. (rule 6.2)
    pub(crate) fn started(mut self) -> Clock
        ensures { result ≡ started_of self }
    {
        self.bus = self.bus.started();
        self
    }

    // Whether a STOP would clear the flags: under ARST, if 0Fh was read in the transfer. (rule 6.11)
    pub fn clears(self) -> bool
        ensures { result ≡ clears_of self }
    {
        arst(self.control.ctr3) & self.bus.marked()
    }

    // STOP: under ARST a transfer that read 0Fh clears both flags. (rules 6.10 and 6.11)
    #[tactic(auto, unfolding(crate::specs::Transfer::stopped_of))]
    pub(crate) fn stopped(mut self) -> Clock
        ensures { result ≡ stopped_of self }
    {
        let keep = !self.clears();
        self.alarm.flag = keep & self.alarm.flag;
        self.countdown.flag = keep & self.countdown.flag;
        self.bus = Bus::default();
        self
    }

    // The seven bytes of the time, latched. (rules 6.3 and 6.9)
    fn latch(mut self) -> Clock
        ensures { result ≡ latched_of self }
    {
        self.latched = self.hand.time.into();
        self
    }

    // What a byte does beside the bus. (rules 6.3 and 6.5)
    fn effected(self, effect: Effect, b: u8) -> Clock
        ensures { result ≡ effected_by effect self b }
    {
        match effect {
            Effect::None => self,
            Effect::Latch => self.latch(),
            Effect::Write(a) => self.write(a, b),
        }
    }

    // A master's byte. (rules 6.3 to 6.6)
    #[tactic(auto, unfolding(crate::specs::Transfer::byte_of))]
    pub(crate) fn byte(self, b: u8) -> Answered
        ensures { result ≡ byte_of self b }
    {
        let heard = self.bus.heard(b);
        let mut clock = self.effected(heard.effect, b);
        clock.bus = heard.bus;
        Answered {
            clock,
            answer: Answer::from(heard.ack),
        }
    }

    // A read at a whose pointer goes on to 00h latches anew. (rule 6.9)
    #[tactic(auto, unfolding(crate::specs::Transfer::renewed_of))]
    fn renewed(self, a: u8) -> Clock
        ensures { result ≡ renewed_of self a }
    {
        match next(a) {
            0x00 => self.latch(),
            _ => self,
        }
    }

    // A read: the byte at the pointer, and then what moves. (rules 6.7 to 6.9)
    #[tactic(auto, unfolding(crate::specs::Transfer::read_of))]
    pub(crate) fn read(self, ack: bool) -> Answered
        ensures { result ≡ read_of self ack }
    {
        let read = self.bus.read(ack);
        let Some(a) = read.sent else {
            return Answered {
                clock: self,
                answer: Answer::Byte(0xFF),
            };
        };
        let mut clock = self.renewed(a);
        clock.bus = read.bus;
        Answered {
            clock,
            answer: Answer::Byte(self.shown(a)),
        }
    }
}
