// The 32 registers as they stand, and as the bus sees them. (rules 2.1 to 2.6, 2.12, 5.10 and 6.7)
ghost use Rattle.std.specs.Prelude.{◌≡◌};
ghost use Rattle.sd2068.specs.Reading.{control_at_of, register_of, shown_of, registers_of};

use crate::clock::Clock;
use control::{ctr1, ctr2};
use registers::byte_at;

impl Clock {
    // Any register as it stands; an address over 1Fh has none and shows FFh. (rule 2.12)
    #[tactic(auto, unfolding(crate::specs::Reading::register_of))]
    pub fn register(self, a: u8) -> u8
        ensures { result ≡ register_of self a }
    {
        match a {
            0x00..=0x06 => byte_at(self.hand.time, a),
            0x07..=0x0D => byte_at(self.alarm.at, a - 0x07),
            0x0E..=0x13 => self.control_at(a),
            0x14..=0x1F => self.ram[(a - 0x14) as usize],
            _ => 0xFF,
        }
    }

    // 0Eh to 13h. (rules 2.3 to 2.6)
    #[tactic(auto, unfolding(crate::specs::Reading::control_at_of))]
    fn control_at(self, a: u8) -> u8
        ensures { result ≡ control_at_of self a }
    {
        match a {
            0x0E => self.alarm.enable,
            0x0F => ctr1(self.lock, self.alarm.flag, self.countdown.flag, self.rtcf),
            0x10 => ctr2(self.lock, self.control),
            0x11 => self.control.ctr3,
            0x12 => self.hand.trim,
            _ => self.countdown.count,
        }
    }

    // As a read on the bus sees it: the time comes from the latch. (rule 6.7)
    #[tactic(auto, unfolding(crate::specs::Reading::shown_of))]
    pub(crate) fn shown(self, a: u8) -> u8
        ensures { result ≡ shown_of self a }
    {
        match a {
            0x00..=0x06 => self.latched[a as usize],
            _ => self.register(a),
        }
    }

    // All 32 as they stand. (rule 2.12)
    #[tactic(auto, using(std::proofs::lemmas::List::take_more_set, std::proofs::lemmas::List::take_all), unfolding(crate::specs::Reading::registers_to))]
    pub fn registers(self) -> [u8; 32]
        ensures { result ≡ registers_of self }
    {
        let mut all = [0; 32];
        for (a, byte) in all.iter_mut().enumerate() {
            *byte = self.register(a as u8);
        }
        all
    }
}
