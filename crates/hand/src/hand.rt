// The hand: nothing but a pulse, a stored byte and power moves it. (rules 4.1, 4.4, 2.7 and 8.2)
ghost use Rattle.std.specs.Prelude.{◌≡◌};
ghost use Rattle.hand.specs.Hand.{ticked_of, within_of, drifted_of, stored_of, well_of};

use crate::trim::length;
use calendar::Time;
use registers::{clear, clear_time, kept, more, reached, turned, with_byte, within};

#[derive(Clone, Copy, Default)]
pub struct Hand {
    pub time: Time,
    pub counter: u32,
    pub trim: u8,
}

impl Hand {
    // One pulse: the counter counts it, or the second is over and the time advances. (rule 4.1)
    #[tactic(auto, unfolding(crate::specs::Hand::ticked_of))]
    pub fn ticked(self) -> Hand
        ensures { result ≡ ticked_of self }
    {
        let length = length(self.time.seconds, self.trim);
        Hand {
            time: if reached(self.counter, length) {
                self.time.advanced()
            } else {
                self.time
            },
            counter: turned(self.counter, length),
            ..self
        }
    }

    // Of the next n pulses, as many as come before the end of the second. (rule 4.1)
    pub fn within(self, n: u32) -> u32
        ensures { result ≡ within_of self n }
    {
        within(self.counter, length(self.time.seconds, self.trim), n)
    }

    // n pulses that do not end the second. (rule 4.1)
    pub fn drifted(mut self, n: u32) -> Hand
        ensures { result ≡ drifted_of self n }
    {
        self.counter = more(self.counter, n);
        self
    }

    // A byte stored at register a; at 00h, whatever it is, it begins the second anew. (rules 2.2 and 2.7)
    #[tactic(auto, unfolding(crate::specs::Hand::stored_of))]
    pub fn stored(mut self, a: u8, b: u8) -> Hand
        ensures { result ≡ stored_of self a b }
    {
        let k = kept(a, b);
        match a {
            0x00..=0x06 => {
                self.time = with_byte(self.time, a, k);
                if a == 0x00 {
                    self.counter = 0;
                }
            }
            0x12 => self.trim = k,
            _ => {}
        }
        self
    }

    // Whether the state may be handed in: fixed bits and the counter's bound. (rule 8.2)
    #[tactic(auto, unfolding(crate::specs::Hand::well_of))]
    pub fn well_formed(self) -> bool
        ensures { result ≡ well_of self }
    {
        clear_time(self.time) & clear(0x12, self.trim) & (self.counter <= 32891)
    }
}
