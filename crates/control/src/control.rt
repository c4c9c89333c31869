// What 10h and 11h set beside the lock. (rules 2.5 to 2.7 and 8.2)
ghost use Rattle.std.specs.Prelude.{◌≡◌};
ghost use Rattle.control.specs.Control.{held_in, stored_of, well_of};

use registers::{bit_at, clear, kept};

#[derive(Clone, Copy, Default)]
pub struct Control {
    pub im: bool,
    pub ints1: bool,
    pub ints0: bool,
    pub fobat: bool,
    pub intde: bool,
    pub intae: bool,
    pub intfe: bool,
    pub ctr3: u8,
}

impl Control {
    // As the bytes of 10h and 11h hold it, the lock's bit left out. (rules 2.5 and 2.6)
    pub fn from_bytes(ctr2: u8, ctr3: u8) -> Control
        ensures { result ≡ held_in ctr2 ctr3 }
    {
        Control {
            im: bit_at(ctr2, 6),
            ints1: bit_at(ctr2, 5),
            ints0: bit_at(ctr2, 4),
            fobat: bit_at(ctr2, 3),
            intde: bit_at(ctr2, 2),
            intae: bit_at(ctr2, 1),
            intfe: bit_at(ctr2, 0),
            ctr3,
        }
    }

    // A byte stored at register a. (rules 2.5 and 2.6)
    #[tactic(auto, unfolding(crate::specs::Control::stored_of))]
    pub fn stored(self, a: u8, b: u8) -> Control
        ensures { result ≡ stored_of self a b }
    {
        match a {
            0x10 => Control::from_bytes(b, self.ctr3),
            0x11 => Control {
                ctr3: kept(a, b),
                ..self
            },
            _ => self,
        }
    }

    // Whether the state may be handed in: the fixed bit of 11h. (rule 8.2)
    #[tactic(auto, unfolding(crate::specs::Control::well_of))]
    pub fn well_formed(self) -> bool
        ensures { result ≡ well_of self }
    {
        clear(0x11, self.ctr3)
    }
}
