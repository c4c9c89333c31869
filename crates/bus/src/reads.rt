// A read. (rules 6.7, 6.8 and 6.11)
ghost use Rattle.std.specs.Prelude.{◌≡◌};
ghost use Rattle.bus.specs.Reads.{moved_of, read_of};

use crate::phase::{Bus, Mode, Phase, Transfer, next};

// The bus after a read, and the register whose byte is sent, if any.
#[derive(Clone, Copy)]
pub struct Read {
    pub bus: Bus,
    pub sent: Option<u8>,
}

impl Bus {
    // A read in any phase: only a transfer that reads sends a byte. (rules 6.7 and 6.8)
    #[tactic(auto, unfolding(crate::specs::Reads::read_of))]
    pub fn read(self, ack: bool) -> Read
        ensures { result ≡ read_of self ack }
    {
        match self.phase {
            Phase::Open(Mode::Reading, transfer) => Read {
                bus: self.moved(transfer, ack),
                sent: Some(self.pointer),
            },
            _ => Read {
                bus: self,
                sent: None,
            },
        }
    }

    // The pointer steps, 0Fh is marked, and a NAK makes the chip deaf. (rules 6.7 and 6.11)
    fn moved(self, transfer: Transfer, ack: bool) -> Bus
        ensures { result ≡ moved_of self.pointer transfer ack }
    {
        let mode = if ack { Mode::Reading } else { Mode::Deaf };
        let marked = self.pointer == 0x0F || transfer.marked;
        Bus {
            pointer: next(self.pointer),
            phase: Phase::Open(mode, Transfer { marked, ..transfer }),
        }
    }
}
