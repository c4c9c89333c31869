// The alarm as a part of the state. (rules 5.1, 5.5, 5.6, 2.7, 2.8 and 8.2)
ghost use Rattle.std.specs.Prelude.{◌≡◌, true};
ghost use Rattle.alarm.specs.Alarm.{rung_of, lessened_of, stored_of, well_of};

use crate::matching::matches;
use calendar::Time;
use fields::pick;
use registers::{bit_at, clear, kept, less, with_byte};

#[derive(Clone, Copy, Default)]
pub struct Alarm {
    pub at: Time,
    pub enable: u8,
    pub flag: bool,
    pub pulse: u32,
}

impl Alarm {
    // Judged where asked: at a second's end from s to t, INTAE being 1. (rule 5.1)
    #[tactic(auto, unfolding(crate::specs::Alarm::rung_of))]
    pub fn rung(self, s: Time, t: Time, asked: bool) -> Alarm
        ensures { result ≡ rung_of self s t asked }
    {
        if asked { self.judged(s, t) } else { self }
    }

    #[tactic(auto, unfolding(crate::specs::Alarm::rung_of))]
    fn judged(self, s: Time, t: Time) -> Alarm
        ensures { result ≡ rung_of self s t true }
    {
        let rings = matches(self.at, self.enable, t) & !matches(self.at, self.enable, s);
        Alarm {
            flag: rings | self.flag,
            pulse: pick(rings, 8192, self.pulse),
            ..self
        }
    }

    // The pin pulse n pulses on; the countdown has the same line, and a trait for both would be longer. (rule 5.6)
    pub fn lessened(mut self, n: u32) -> Alarm
        ensures { result ≡ lessened_of self n }
    {
        self.pulse = less(self.pulse, n);
        self
    }

    // A byte stored at register a: 0Eh also clears the flag, and at 0Fh a 0 does. (rules 2.7 and 2.8)
    #[tactic(auto, unfolding(crate::specs::Alarm::stored_of))]
    pub fn stored(mut self, a: u8, b: u8) -> Alarm
        ensures { result ≡ stored_of self a b }
    {
        let k = kept(a, b);
        match a {
            0x07..=0x0D => self.at = with_byte(self.at, a - 7, k),
            0x0E => {
                self.enable = k;
                self.flag = false;
            }
            0x0F => self.flag &= bit_at(b, 5),
            _ => {}
        }
        self
    }

    // Whether the state may be handed in: fixed bits, without a loop as in clear_time, and the pin pulse's bound. (rule 8.2)
    #[tactic(auto, unfolding(crate::specs::Alarm::well_of))]
    pub fn well_formed(self) -> bool
        ensures { result ≡ well_of self }
    {
        clear(0x07, self.at.seconds)
            & clear(0x08, self.at.minutes)
            & clear(0x09, self.at.hours)
            & clear(0x0A, self.at.weekday)
            & clear(0x0B, self.at.day)
            & clear(0x0C, self.at.month)
            & clear(0x0D, self.at.year)
            & clear(0x0E, self.enable)
            & (self.pulse <= 8192)
    }
}
