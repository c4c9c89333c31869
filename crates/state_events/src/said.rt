// What is told of an event in one number. (rule 10.5)
ghost use Rattle.std.specs.Prelude.{◌≡◌};
ghost use Rattle.control.specs.Pin.{letter_of};
ghost use Rattle.state_events.specs.Said.{told_of};

use control::Level;
use events::Answer;

// Refusal, pin and answer of an event, as C is told them: four bytes from the low one. (rule 10.5)
pub fn told(refusal: u8, pin: Level, answer: Answer) -> u32
    ensures { result ≡ told_of refusal (letter_of pin) answer }
{
    let (byte, number) = match answer {
        Answer::Quiet => (0, 0),
        Answer::Ack => (0, 1),
        Answer::Nak => (0, 2),
        Answer::Byte(b) => (b, 3),
    };
    u32::from_le_bytes([refusal, pin.letter(), byte, number])
}
