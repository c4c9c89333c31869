// How many pulses a second has. (rules 4.2 and 4.3)
ghost use Rattle.std.specs.Prelude.{◌≡◌, ◌%◌, pos, ◌+ℤ◌, nat_abs};
ghost use Rattle.hand.specs.Trim.{change_of, trimmed_of, length_of};

// Only three seconds of a minute are trimmed. (rule 4.2)
fn trimmed(seconds: u8) -> bool
    ensures { result ≡ trimmed_of seconds }
{
    matches!(seconds, 0x00 | 0x20 | 0x40)
}

// The length of a trimmed second: with the change that the low seven bits of the trim register ask for. (rule 4.3)
#[tactic(auto, unfolding(crate::specs::Trim::change_of))]
fn trimmed_length(trim: u8) -> u32
    ensures { result ≡ nat_abs (pos 32768 +ℤ change_of (trim % 128)) }
{
    let f = u32::from(trim % 128);
    match f {
        2..=63 => 32768 + 2 * (f - 1),
        66.. => 32768 - 2 * (128 - f),
        _ => 32768,
    }
}

// The length of the present second. (rule 4.2)
#[tactic(auto, unfolding(crate::specs::Trim::length_of))]
pub(crate) fn length(seconds: u8, trim: u8) -> u32
    ensures { result ≡ length_of seconds trim }
{
    if trimmed(seconds) {
        trimmed_length(trim)
    } else {
        32768
    }
}
