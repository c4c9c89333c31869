// The four words that a file begins with. (rule 9.1)
ghost use Rattle.std.specs.Prelude.{◌≡◌, ◌+◌, ◌^◌, ◌<◌, get_or};
ghost use Rattle.script.specs.Header.{word_of, header_of};

use state_bytes::at;

// A little-endian word, past the end of a file with 0 in its place.
pub(crate) fn word_at(file: &[u8], i: usize) -> u16
    requires { i < 2 ^ 32 }
    ensures { result ≡ word_of (get_or file.now i 0) (get_or file.now (i + 1) 0) }
{
    u16::from_le_bytes([at(file, i), at(file, i + 1)])
}

// How many events there are and where, and the same of the start bytes.
#[derive(Clone, Copy)]
pub struct Header {
    pub count: u16,
    pub events: u16,
    pub starts: u16,
    pub start: u16,
}

// The four words of a file. (rule 9.1)
pub(crate) fn header_of(file: &[u8]) -> Header
    ensures { result ≡ header_of file.now }
{
    Header {
        count: word_at(file, 0),
        events: word_at(file, 2),
        starts: word_at(file, 4),
        start: word_at(file, 6),
    }
}
