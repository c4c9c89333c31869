// What an event does to a state, told from the state before it. (rules 11.1 to 11.5)
ghost use Rattle.std.specs.Prelude.{◌≡◌};
ghost use Rattle.events.specs.Kind.{event_of};
ghost use Rattle.facts.specs.Deeds.{start_deed, stop_deed, byte_deed, register_deed, read_deed, event_deed, deed_of};

use bus::{Bus, Mode, Phase, next};
use events::{Event, Kind};
use sd2068::Clock;

// A register's address stands beside what was done at it.
#[derive(Clone, Copy)]
pub enum Deed {
    Refused,
    Opened,
    Repeated,
    Closed,
    Cleared,
    Idle,
    ToWrite,
    ToRead,
    Elsewhere,
    Pointed(u8),
    Beyond,
    Stored(u8),
    Lost(u8),
    Unheard,
    Latched(u8),
    Sent(u8),
    Renewed(u8),
    Silent,
    Passed,
    PowerLost,
}

// START: is a transfer open? (rule 6.2)
fn start_deed(phase: Phase) -> Deed
    ensures { result ≡ start_deed phase }
{
    match phase {
        Phase::Closed => Deed::Opened,
        Phase::Open(..) => Deed::Repeated,
    }
}

// STOP: is a transfer open, and do the flags clear? (rules 6.10 and 6.11)
fn stop_deed(phase: Phase, clears: bool) -> Deed
    ensures { result ≡ stop_deed phase clears }
{
    match phase {
        Phase::Closed => Deed::Idle,
        Phase::Open(..) if clears => Deed::Cleared,
        Phase::Open(..) => Deed::Closed,
    }
}

// A master's byte: an address, a pointer, or data for the register at the pointer. (rules 6.3 to 6.6 and 7.2)
fn byte_deed(c: Clock, b: u8) -> Deed
    ensures { result ≡ byte_deed c b }
{
    let Phase::Open(mode, _) = c.bus.phase else {
        return Deed::Unheard;
    };
    let a = c.bus.pointer;
    match (mode, b) {
        (Mode::Address, 0x64) => Deed::ToWrite,
        (Mode::Address, 0x65) => Deed::ToRead,
        (Mode::Address, _) => Deed::Elsewhere,
        (Mode::Pointer, 0x00..=0x1F) => Deed::Pointed(b),
        (Mode::Pointer, _) => Deed::Beyond,
        (Mode::Writing, _) if c.stores(a, b) => Deed::Stored(a),
        (Mode::Writing, _) => Deed::Lost(a),
        (Mode::Reading | Mode::Deaf, _) => Deed::Unheard,
    }
}

// A register that is sent: the time from the latch, and behind 1Fh the time is latched anew. (rules 6.7 and 6.9)
fn register_deed(a: u8) -> Deed
    ensures { result ≡ register_deed a }
{
    match a {
        0x00..=0x06 => Deed::Latched(a),
        _ if next(a) == 0x00 => Deed::Renewed(a),
        _ => Deed::Sent(a),
    }
}

// A read, with ACK or NAK: only a transfer that reads sends a byte. (rules 6.7 and 6.8)
fn read_deed(bus: Bus) -> Deed
    ensures { result ≡ read_deed bus }
{
    match bus.phase {
        Phase::Open(Mode::Reading, _) => register_deed(bus.pointer),
        _ => Deed::Silent,
    }
}

// An event that is not refused. (rule 8.1)
#[tactic(auto, unfolding(crate::specs::Deeds::event_deed))]
fn event_deed(c: Clock, kind: Kind) -> Deed
    ensures { let e = event_of kind in result ≡ event_deed c e.kind e.byte }
{
    match kind {
        Kind::Start => start_deed(c.bus.phase),
        Kind::Stop => stop_deed(c.bus.phase, c.clears()),
        Kind::Byte(b) => byte_deed(c, b),
        Kind::ReadAck | Kind::ReadNak => read_deed(c.bus),
        Kind::Pulses(_) => Deed::Passed,
        Kind::PowerLoss => Deed::PowerLost,
    }
}

// Any event on any state. (rules 8.3 and 11.1)
#[tactic(auto, using(events::proofs::TriedLaws::tried_number, events::proofs::TriedLaws::tried_kind), unfolding(crate::specs::Deeds::deed_of, sd2068::specs::Step::refusal_of))]
pub fn deed_of(c: Clock, event: Event) -> Deed
    ensures { result ≡ deed_of c event.kind event.byte event.count }
{
    match Kind::try_from(event) {
        Ok(kind) if c.well_formed() => event_deed(c, kind),
        _ => Deed::Refused,
    }
}
