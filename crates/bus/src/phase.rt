// The phase of the bus, and what START and time do to it. (rules 6.1, 6.2, 6.11, 6.12 and 8.2)
ghost use Rattle.std.specs.Prelude.{◌≡◌};
ghost use Rattle.bus.specs.Phase.{next_of, started_of, older_of, marked_of, well_of};

// What an open transfer awaits or does, with its number in a state's bytes. (rules 6.1 and 10.2)
#[derive(Clone, Copy)]
pub enum Mode {
    Address = 1,
    Pointer,
    Writing,
    Reading,
    Deaf,
}

// What an open transfer carries: its age in pulses, and the mark of a read at 0Fh. (rule 6.1)
#[derive(Clone, Copy, Default)]
pub struct Transfer {
    pub age: u32,
    pub marked: bool,
}

// The rule and the definitions of the bus name both, where an Option would have None and Some. (rule 6.1)
#[derive(Clone, Copy, Default)]
pub enum Phase {
    #[default]
    Closed,
    Open(Mode, Transfer),
}

#[derive(Clone, Copy, Default)]
pub struct Bus {
    pub pointer: u8,
    pub phase: Phase,
}

impl Bus {
    // START: a transfer begins if none is open, and an address is awaited. (rule 6.2)
    pub fn started(self) -> Bus
        ensures { result ≡ started_of self }
    {
        let transfer = match self.phase {
            Phase::Closed => Transfer::default(),
            Phase::Open(_, transfer) => transfer,
        };
        Bus {
            phase: Phase::Open(Mode::Address, transfer),
            ..self
        }
    }

    // n pulses on: an open transfer that comes to 16,384 closes. (rule 6.12)
    pub fn older(self, n: u32) -> Bus
        ensures { result ≡ older_of self n }
    {
        match self.phase {
            Phase::Closed => self,
            Phase::Open(mode, transfer) => {
                let age = transfer.age.saturating_add(n);
                if age < 16384 {
                    Bus {
                        phase: Phase::Open(mode, Transfer { age, ..transfer }),
                        ..self
                    }
                } else {
                    Bus::default()
                }
            }
        }
    }

    // Whether 0Fh was read in the open transfer. (rule 6.11)
    pub fn marked(self) -> bool
        ensures { result ≡ marked_of self }
    {
        match self.phase {
            Phase::Closed => false,
            Phase::Open(_, transfer) => transfer.marked,
        }
    }

    // Whether the state may be handed in: the bounds of the pointer and the age. (rule 8.2)
    pub fn well_formed(self) -> bool
        ensures { result ≡ well_of self }
    {
        match self.phase {
            Phase::Closed => self.pointer <= 31,
            Phase::Open(_, transfer) => self.pointer <= 31 && transfer.age <= 16383,
        }
    }
}

// The pointer after an access: 1Fh is followed by 00h. (rules 6.5 and 6.7)
pub fn next(pointer: u8) -> u8
    ensures { result ≡ next_of pointer }
{
    match pointer {
        0x00..=0x1E => pointer + 1,
        _ => 0x00,
    }
}
