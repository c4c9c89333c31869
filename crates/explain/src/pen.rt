// The words of a line. (rule 11.7)
use calendar::Time;
use sd2068::Clock;
use state_bytes::bytes_of;
use std::fmt;
use std::fmt::Display;

// The 61 bytes of a state, each in two digits. (rule 10.2)
#[derive(Clone, Copy)]
pub(crate) struct State(pub(crate) Clock);

impl Display for State {
    fn fmt<W: fmt::Write>(&self, f: &mut fmt::Formatter<W>) -> fmt::Result {
        for b in bytes_of(self.0) {
            write!(f, "{b:02X}")?;
        }
        Ok(())
    }
}

// The second number of a time, where it has one. (rule 3.14)
#[derive(Clone, Copy)]
pub(crate) struct Number(pub(crate) Time);

impl Display for Number {
    fn fmt<W: fmt::Write>(&self, f: &mut fmt::Formatter<W>) -> fmt::Result {
        match self.0.number() {
            Some(n) => write!(f, "{n}"),
            None => write!(f, "-"),
        }
    }
}
