// The countdown: count and reload, the prescaler, its flag and its pin pulse. (rules 5.6 to 5.9, 2.7, 2.8 and 8.2)
#![tactic(auto)]

ghost use Rattle.std.specs.Prelude.{◌≡◌};
ghost use Rattle.countdown.specs.Countdown.{limit_of, down_of, counted_of, lessened_of, within_of, drifted_of, stored_of, well_of};

use fields::pick;
use registers::{bit_at, less, more, reached, turned, within};

#[derive(Clone, Copy, Default)]
pub struct Countdown {
    pub count: u8,
    pub reload: u8,
    pub prescaler: u32,
    pub flag: bool,
    pub pulse: u32,
}

impl Countdown {
    // One pulse, by INTDE and TDS. (rules 5.7 to 5.9)
    #[tactic(auto, unfolding(crate::specs::Countdown::counted_of))]
    pub fn counted(self, on: bool, tds: u8) -> Countdown
        ensures { result ≡ counted_of self on tds }
    {
        let limit = limit(tds);
        let ticks = on & reached(self.prescaler, limit);
        let fires = ticks & (self.count == 1);
        Countdown {
            count: pick(ticks, down(self.count, self.reload), self.count),
            prescaler: pick(on, turned(self.prescaler, limit), self.prescaler),
            flag: fires | self.flag,
            pulse: pick(fires, 8192, self.pulse),
            ..self
        }
    }

    // The pin pulse n pulses on. (rule 5.6)
    pub fn lessened(mut self, n: u32) -> Countdown
        ensures { result ≡ lessened_of self n }
    {
        self.pulse = less(self.pulse, n);
        self
    }

    // Of the next n pulses, as many as come before a tick, by INTDE and TDS. (rule 5.7)
    pub fn within(self, on: bool, tds: u8, n: u32) -> u32
        ensures { result ≡ within_of self on tds n }
    {
        pick(on, within(self.prescaler, limit(tds), n), n)
    }

    // n pulses that make no tick, by INTDE. (rules 5.6 and 5.7)
    pub fn drifted(mut self, on: bool, n: u32) -> Countdown
        ensures { result ≡ drifted_of self on n }
    {
        self.prescaler = pick(on, more(self.prescaler, n), self.prescaler);
        self.lessened(n)
    }

    // A byte stored at register a. (rules 2.7 and 2.8)
    #[tactic(auto, unfolding(crate::specs::Countdown::stored_of))]
    pub fn stored(mut self, a: u8, b: u8) -> Countdown
        ensures { result ≡ stored_of self a b }
    {
        match a {
            0x0F => self.flag &= bit_at(b, 4),
            0x11 => self.prescaler = 0,
            0x13 => {
                self.count = b;
                self.reload = b;
                self.prescaler = 0;
            }
            _ => {}
        }
        self
    }

    // Whether the state may be handed in: the bounds of count, prescaler and pin pulse. (rule 8.2)
    #[tactic(auto, unfolding(crate::specs::Countdown::well_of))]
    pub fn well_formed(self) -> bool
        ensures { result ≡ well_of self }
    {
        (self.count <= self.reload) & (self.prescaler <= 1966079) & (self.pulse <= 8192)
    }
}

// The pulses of a tick, by TDS. (rule 5.7)
fn limit(tds: u8) -> u32
    ensures { result ≡ limit_of tds }
{
    match tds {
        0 => 8,
        1 => 512,
        2 => 32768,
        _ => 1966080,
    }
}

// The count after a tick. (rule 5.8)
fn down(count: u8, reload: u8) -> u8
    ensures { result ≡ down_of count reload }
{
    count.checked_sub(1).unwrap_or(reload)
}
