// A line of the output: the answer, a space, the pin and a newline. (rule 9.5)
ghost use Rattle.std.specs.Prelude.{◌≡◌};
ghost use Rattle.events.specs.Answer.{text_of};
ghost use Rattle.state_events.specs.Said.{pin_in, text_in, text_by};
ghost use Rattle.script.specs.Lines.{line_of};

use events::Answer;

// An answer by its number and its byte, as `told` has packed them for C. (rule 10.5)
fn answer_by(number: u8, byte: u8) -> Answer
    ensures { text_of result ≡ text_by number byte }
{
    match number {
        0 => Answer::Quiet,
        1 => Answer::Ack,
        2 => Answer::Nak,
        _ => Answer::Byte(byte),
    }
}

// The line of an event, by what is told of it. (rule 9.5)
pub(crate) fn line(told: u32) -> [u8; 5]
    ensures { result ≡ line_of (text_in told) (pin_in told) }
{
    let [_, pin, byte, number] = told.to_le_bytes();
    let [first, second] = answer_by(number, byte).text();
    [first, second, b' ', pin, b'\n']
}
