// The lock, and the two registers that its bits stand in. (rules 7.1 to 7.5, 2.4, 2.5 and 8.2)
ghost use Rattle.std.specs.Prelude.{◌≡◌, cond, ◌≤◌};
ghost use Rattle.control.specs.Lock.{open_of, written_of, well_of, ctr1_of, ctr2_of};

use crate::control::Control;
use fields::pick;
use registers::bit_at;

#[derive(Clone, Copy, Default)]
pub struct Lock {
    pub wrtc1: bool,
    pub wrtc2: bool,
    pub wrtc3: bool,
}

impl Lock {
    // Open when all three are 1. (rule 7.1)
    pub fn is_open(self) -> bool
        ensures { result ≡ open_of self }
    {
        self.wrtc1 & self.wrtc2 & self.wrtc3
    }

    // The lock bits after a byte is written to register a, stored or not. (rules 7.3 and 7.4)
    #[tactic(auto, unfolding(crate::specs::Lock::written_of))]
    pub fn written(self, a: u8, b: u8) -> Lock
        ensures { result ≡ written_of self a b }
    {
        let high = bit_at(b, 7);
        match a {
            0x0F => Lock {
                wrtc2: pick(self.wrtc1, bit_at(b, 2), self.wrtc2),
                wrtc3: pick(self.wrtc1, high, self.wrtc3),
                ..self
            },
            0x10 => Lock {
                wrtc1: high,
                wrtc2: high & self.wrtc2,
                wrtc3: high & self.wrtc3,
            },
            _ => self,
        }
    }

    // WRTC2 and WRTC3 are not without WRTC1; by a branch, for speed where bytes are judged. (rule 8.2)
    #[tactic(auto, unfolding(crate::specs::Lock::well_of))]
    pub fn well_formed(self) -> bool
        ensures { result ≡ well_of self }
    {
        self.wrtc1 || !(self.wrtc2 | self.wrtc3)
    }
}

// What a bit adds to its byte.
fn weight(b: bool, w: u8) -> u8
    ensures { (result ≡ cond b w 0) × (result ≤ w) }
{
    pick(b, w, 0)
}

// Register 0Fh; its flags are of three groups, which nothing below the clock has together. (rule 2.4)
#[tactic(auto, unfolding(crate::specs::Lock::ctr1_of))]
pub fn ctr1(lock: Lock, intaf: bool, intdf: bool, rtcf: bool) -> u8
    ensures { result ≡ ctr1_of lock intaf intdf rtcf }
{
    weight(lock.wrtc3, 0x80)
        + weight(intaf, 0x20)
        + weight(intdf, 0x10)
        + weight(lock.wrtc2, 0x04)
        + weight(rtcf, 0x01)
}

// Register 10h. (rule 2.5)
#[tactic(auto, unfolding(crate::specs::Lock::ctr2_of))]
pub fn ctr2(lock: Lock, c: Control) -> u8
    ensures { result ≡ ctr2_of lock c }
{
    weight(lock.wrtc1, 0x80)
        + weight(c.im, 0x40)
        + weight(c.ints1, 0x20)
        + weight(c.ints0, 0x10)
        + weight(c.fobat, 0x08)
        + weight(c.intde, 0x04)
        + weight(c.intae, 0x02)
        + weight(c.intfe, 0x01)
}
