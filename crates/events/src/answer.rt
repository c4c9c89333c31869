// What the wire shows of an event. (rule 8.1)
ghost use Rattle.std.specs.Prelude.{◌≡◌, ◌<◌};
ghost use Rattle.events.specs.Answer.{digit_of, text_of, acknowledged};

#[derive(Clone, Copy, PartialEq, Eq)]
pub enum Answer {
    Quiet,
    Ack,
    Nak,
    Byte(u8),
}

impl From<bool> for Answer {
    ghost from_gives = { λ ack answer. answer ≡ acknowledged ack };

    fn from(ack: bool) -> Answer {
        if ack { Answer::Ack } else { Answer::Nak }
    }
}

// The character of a hexadecimal digit, in upper case.
fn digit(d: u8) -> u8
    requires { d < 16 }
    ensures { result ≡ digit_of d }
{
    if d < 10 { b'0' + d } else { b'A' + (d - 10) }
}

impl Answer {
    // The two characters of a script's line, as bytes, since a line is made in lent memory. (rule 8.1)
    pub fn text(self) -> [u8; 2]
        ensures { result ≡ text_of self }
    {
        match self {
            Answer::Quiet => *b"--",
            Answer::Ack => *b"AK",
            Answer::Nak => *b"NK",
            Answer::Byte(b) => [digit(b / 16), digit(b % 16)],
        }
    }
}
