// The events of a section. (rule 9.3)
ghost use Rattle.std.specs.Prelude.{◌≡◌};
ghost use Rattle.script.specs.Event.{event_at};

use events::Event;

// Kind, byte and count, in four bytes. (rule 9.3)
pub(crate) fn event_in(bytes: [u8; 4]) -> Event
    ensures { result ≡ event_at bytes 0 }
{
    let [kind, byte, low, high] = bytes;
    Event {
        kind,
        byte,
        count: u16::from_le_bytes([low, high]),
    }
}
