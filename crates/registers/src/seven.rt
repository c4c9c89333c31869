// Seven bytes in the order of the time's registers, by their place 0 to 6. (rules 2.1 and 2.3)
ghost use Rattle.std.specs.Prelude.{◌≡◌};
ghost use Rattle.registers.specs.Seven.{byte_at_of, with_byte_of};

use calendar::Time;

// The byte at place i; past the last it is the last.
#[tactic(auto, unfolding(crate::specs::Seven::byte_at_of))]
pub fn byte_at(t: Time, i: u8) -> u8
    ensures { result ≡ byte_at_of t i }
{
    <[u8; 7]>::from(t)[i.min(6) as usize]
}

// The same bytes but for b at place i; past the last nothing changes.
#[tactic(auto, unfolding(crate::specs::Seven::with_byte_of))]
pub fn with_byte(t: Time, i: u8, b: u8) -> Time
    ensures { result ≡ with_byte_of t i b }
{
    let mut bytes = <[u8; 7]>::from(t);
    if i < 7 {
        bytes[i as usize] = b;
    }
    Time::from(bytes)
}
