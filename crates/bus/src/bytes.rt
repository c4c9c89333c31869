// A master's byte. (rules 6.3 to 6.6)
ghost use Rattle.std.specs.Prelude.{◌≡◌};
ghost use Rattle.bus.specs.Bytes.{heard_of};

use crate::phase::{Bus, Mode, Phase, next};

// What the byte asks of the rest of the chip; each match tells the three cases apart, and an Option would only nest two of them.
#[derive(Clone, Copy)]
pub enum Effect {
    None,
    Latch,
    Write(u8),
}

// The bus after the byte, whether it is acknowledged, and its effect.
#[derive(Clone, Copy)]
pub struct Heard {
    pub bus: Bus,
    pub ack: bool,
    pub effect: Effect,
}

impl Bus {
    // A byte in any phase: one that is not awaited is not acknowledged. (rules 6.3 to 6.6)
    #[tactic(auto, unfolding(crate::specs::Bytes::heard_of))]
    pub fn heard(self, b: u8) -> Heard
        ensures { result ≡ heard_of self b }
    {
        let Phase::Open(mode, transfer) = self.phase else {
            return Heard {
                bus: self,
                ack: false,
                effect: Effect::None,
            };
        };
        let (mode, pointer, ack, effect) = match (mode, b) {
            (Mode::Address, 0x64) => (Mode::Pointer, self.pointer, true, Effect::None),
            (Mode::Address, 0x65) => (Mode::Reading, self.pointer, true, Effect::Latch),
            (Mode::Pointer, 0x00..=0x1F) => (Mode::Writing, b, true, Effect::None),
            (Mode::Writing, _) => (
                Mode::Writing,
                next(self.pointer),
                true,
                Effect::Write(self.pointer),
            ),
            (Mode::Reading, _) => (Mode::Reading, self.pointer, false, Effect::None),
            _ => (Mode::Deaf, self.pointer, false, Effect::None),
        };
        Heard {
            bus: Bus {
                pointer,
                phase: Phase::Open(mode, transfer),
            },
            ack,
            effect,
        }
    }
}
