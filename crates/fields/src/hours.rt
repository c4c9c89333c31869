// Hours in both modes. (rules 3.4 and 3.5)
ghost use Rattle.std.specs.Prelude.{◌≡◌};
ghost use Rattle.fields.specs.Hours.{mode_of, first_hour, codes, place_of, hour_number_of, hour_byte_of, next_hour_of};

use crate::digits::{Field, byte, pick, value};

// The hours' digits in each mode.
const TWELVE: Field = Field {
    first: 0x01,
    last: 0x12,
};

const TWENTY_FOUR: Field = Field {
    first: 0x00,
    last: 0x23,
};

#[derive(Clone, Copy)]
pub enum HourMode {
    Twelve,
    TwentyFour,
}

// The mode that bit 7 of an hour tells, which `HourMode::from` would not say of a whole byte. (rule 3.4)
pub fn mode(h: u8) -> HourMode
    ensures { result ≡ mode_of h }
{
    if h < 0x80 {
        HourMode::Twelve
    } else {
        HourMode::TwentyFour
    }
}

// The code of midnight. (rule 3.5)
pub(crate) fn first_hour(m: HourMode) -> u8
    ensures { result ≡ first_hour m }
{
    match m {
        HourMode::Twelve => 0x12,
        HourMode::TwentyFour => 0x80,
    }
}

// The hour of the day, 0 to 23, and 24 for a byte that is no hour, as `hour_number_of` has it. (rule 3.5)
#[tactic(auto, unfolding(crate::specs::Hours::hour_number_of))]
pub(crate) fn hour_number(h: u8) -> u8
    ensures { result ≡ hour_number_of h }
{
    match mode(h) {
        HourMode::Twelve => number12(h),
        HourMode::TwentyFour => number24(h),
    }
}

// In 12-hour mode bit 5 is PM, and 12 is the first hour of its half of the day.
#[tactic(auto, using(crate::proofs::HourCodes::number12_right))]
fn number12(h: u8) -> u8
    ensures { result ≡ place_of h (codes HourMode.Twelve) }
{
    pick(
        TWELVE.legal(h % 32) & (h < 0x40),
        value(h % 32) % 12 + h / 32 * 12,
        24,
    )
}

// In 24-hour mode the six low bits say the hour; bit 6 is never set.
#[tactic(auto, using(crate::proofs::HourCodes::number24_right))]
fn number24(h: u8) -> u8
    ensures { result ≡ place_of h (codes HourMode.TwentyFour) }
{
    pick(TWENTY_FOUR.legal(h % 128) & (0x80 <= h), value(h % 128), 24)
}

// The code of an hour of the day, and the mode's first for a number past 23. (rule 3.5)
pub(crate) fn hour_byte(m: HourMode, n: u8) -> u8
    ensures { result ≡ hour_byte_of m n }
{
    match m {
        HourMode::Twelve => byte12(n),
        HourMode::TwentyFour => byte24(n),
    }
}

// A clock's face says 12 where the half of the day begins.
#[tactic(auto, using(crate::proofs::HourCodes::byte12_right))]
fn byte12(n: u8) -> u8
    ensures { result ≡ hour_byte_of HourMode.Twelve n }
{
    pick(n < 24, byte((n % 12 + 11) % 12 + 1) + n / 12 % 2 * 32, 0x12)
}

// The remainder leaves every hour as it is and keeps the sum in a byte.
#[tactic(auto, using(crate::proofs::HourCodes::byte24_right))]
fn byte24(n: u8) -> u8
    ensures { result ≡ hour_byte_of HourMode.TwentyFour n }
{
    pick(n < 24, byte(n % 24) + 0x80, 0x80)
}

// The code after h; after the last one, and from an illegal one, the first of h's mode. (rule 3.5)
#[tactic(auto, using(crate::proofs::HourCodes::hour_small), unfolding(crate::specs::Hours::next_hour_of))]
pub(crate) fn next_hour(h: u8) -> u8
    ensures { result ≡ next_hour_of h }
{
    hour_byte(mode(h), hour_number(h) + 1)
}
