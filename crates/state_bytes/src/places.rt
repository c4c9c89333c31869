// Bytes by their place: past the end there is 0, so a state's bytes are a slice of any length, and a place any number. (rule 10.1)
ghost use Rattle.std.specs.Prelude.{◌≡◌, ◌≤◌, get_or};
ghost use Rattle.state_bytes.specs.Places.{bytes_at, time_at, word_at, long_at};

use calendar::Time;

pub fn at(s: &[u8], i: usize) -> u8
    ensures { result ≡ get_or s.now i 0 }
{
    s.get(i).copied().unwrap_or(0)
}

// N bytes from place i on; twelve, those of the RAM, are the most that are read so.
pub(crate) fn bytes_at<const N: usize>(s: &[u8], i: u8) -> [u8; N]
    requires { N ≤ 12 }
    ensures { result ≡ bytes_at s.now i 0 N }
{
    let mut bytes = [0; N];
    for (k, byte) in bytes.iter_mut().enumerate() {
        *byte = at(s, i as usize + k);
    }
    bytes
}

// Seven bytes in the order of the time's registers.
pub fn time_at(s: &[u8], i: u8) -> Time
    ensures { result ≡ time_at s.now i }
{
    Time::from(bytes_at(s, i))
}

pub(crate) fn word_at(s: &[u8], i: u8) -> u32
    ensures { result ≡ word_at s.now i }
{
    u16::from_le_bytes(bytes_at(s, i)) as u32
}

pub(crate) fn long_at(s: &[u8], i: u8) -> u32
    ensures { result ≡ long_at s.now i }
{
    u32::from_le_bytes(bytes_at(s, i))
}
