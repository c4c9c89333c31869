// The levels of the pin. (rules 5.12 to 5.14 and 8.1)
ghost use Rattle.std.specs.Prelude.{◌≡◌, ◌<◌};
ghost use Rattle.control.specs.Pin.{letter_of, driven_of, bell_of, period_of, low_half_of, output_of, frequency_of};

// Each has its letter for its number: H, L and X. (rule 8.1)
#[derive(Clone, Copy, PartialEq, Eq)]
pub enum Level {
    High = 72,
    Low = 76,
    Crystal = 88,
}

impl Level {
    // The character of a script's line. (rule 8.1)
    pub fn letter(self) -> u8
        ensures { result ≡ letter_of self }
    {
        self as u8
    }
}

// A pin that is low or high, which `Level::from` of a bool would not say.
fn driven(low: bool) -> Level
    ensures { letter_of result ≡ driven_of low }
{
    if low { Level::Low } else { Level::High }
}

// Alarm or countdown: under IM 0 the flag decides, under IM 1 its pin pulse while enabled. (rule 5.12)
#[tactic(auto, unfolding(crate::specs::Pin::bell_of))]
pub fn bell(im: bool, flag: bool, enabled: bool, pulse: u32) -> Level
    ensures { letter_of result ≡ bell_of im flag enabled pulse }
{
    if im {
        driven(enabled & (0 < pulse))
    } else {
        driven(flag)
    }
}

// The periods of FS 2 to 14, in pulses. (rule 5.14)
#[tactic(auto, unfolding(crate::specs::Pin::period_of))]
fn period(fs: u8) -> u32
    ensures value { result ≡ period_of fs }
    ensures some { 0 < result }
{
    match fs {
        2 => 8,
        3 => 32,
        4 => 512,
        5 => 1024,
        6 => 2048,
        7 => 4096,
        8 => 8192,
        9 => 16384,
        10 => 32768,
        11 => 65536,
        12 => 131072,
        13 => 262144,
        _ => 524288,
    }
}

// Whether the free divider is in the first half of its period. (rule 5.14)
#[tactic(auto, unfolding(crate::specs::Pin::low_half_of))]
fn low_half(fs: u8, divider: u32) -> bool
    ensures { result ≡ low_half_of fs divider }
{
    let period = period(fs);
    divider % period < period / 2
}

// FS stands in a register and the divider beside all registers, so they come as two numbers.
#[tactic(auto, unfolding(crate::specs::Pin::output_of))]
fn output(fs: u8, divider: u32, counter: u32) -> Level
    ensures { letter_of result ≡ output_of fs divider counter }
{
    match fs {
        0 => Level::High,
        1 => Level::Crystal,
        15 => driven(counter < 16384),
        _ => driven(low_half(fs, divider)),
    }
}

// The frequency that FS names, high unless INTFE is 1. (rules 5.13 and 5.14)
pub fn frequency(intfe: bool, fs: u8, divider: u32, counter: u32) -> Level
    ensures { letter_of result ≡ frequency_of intfe fs divider counter }
{
    if intfe {
        output(fs, divider, counter)
    } else {
        Level::High
    }
}
