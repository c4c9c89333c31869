// A byte written to a register. (rules 2.7, 2.8 and 7.2 to 7.5)
ghost use Rattle.std.specs.Prelude.{◌≡◌, true};
ghost use Rattle.sd2068.specs.Writing.{ram_stored_of, stores_of, written_by, write_of};

use crate::clock::Clock;

// The RAM after a byte stored at register a. (rule 2.7)
#[tactic(auto, unfolding(crate::specs::Writing::ram_stored_of))]
fn ram_stored(mut ram: [u8; 12], a: u8, b: u8) -> [u8; 12]
    ensures { result ≡ ram_stored_of ram a b }
{
    match a {
        0x14..=0x1F => ram[(a - 0x14) as usize] = b,
        _ => {}
    }
    ram
}

impl Clock {
    // Whether a byte for register a is stored: the lock is open before it and after it. (rule 7.2)
    pub fn stores(self, a: u8, b: u8) -> bool
        ensures { result ≡ stores_of self a b }
    {
        let before = self.lock;
        let after = before.written(a, b);
        before.is_open() & after.is_open()
    }

    // A byte at register a: the lock bits go by it alone, the rest takes it if it is stored. (rule 7.2)
    #[tactic(auto, unfolding(crate::specs::Writing::write_of))]
    pub(crate) fn write(self, a: u8, b: u8) -> Clock
        ensures { result ≡ write_of self a b }
    {
        if self.stores(a, b) {
            self.stored(a, b)
        } else {
            Clock {
                lock: self.lock.written(a, b),
                ..self
            }
        }
    }

    // The same where the byte is stored. (rule 2.7)
    fn stored(mut self, a: u8, b: u8) -> Clock
        ensures { result ≡ written_by true self a b }
    {
        self.hand = self.hand.stored(a, b);
        self.alarm = self.alarm.stored(a, b);
        self.countdown = self.countdown.stored(a, b);
        self.lock = self.lock.written(a, b);
        self.control = self.control.stored(a, b);
        self.ram = ram_stored(self.ram, a, b);
        self
    }
}
