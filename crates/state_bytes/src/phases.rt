// The phase of the bus by its number, the mark and the age: each is a part of it, and no conversion. (rule 10.2)
ghost use Rattle.std.specs.Prelude.{◌≡◌};
ghost use Rattle.state_bytes.specs.Phases.{number_in, mark_in, age_in, phase_of, phase_well};

use bus::{Mode, Phase, Transfer};

pub fn number_in(phase: Phase) -> u8
    ensures { result ≡ number_in phase }
{
    match phase {
        Phase::Closed => 0,
        Phase::Open(mode, _) => mode as u8,
    }
}

pub fn mark_in(phase: Phase) -> u8
    ensures { result ≡ mark_in phase }
{
    match phase {
        Phase::Closed => 0,
        Phase::Open(_, transfer) => u8::from(transfer.marked),
    }
}

pub fn age_in(phase: Phase) -> u32
    ensures { result ≡ age_in phase }
{
    match phase {
        Phase::Closed => 0,
        Phase::Open(_, transfer) => transfer.age,
    }
}

// A number that is no open phase's counts as closed, as `phase_of` has it, so no conversion of it can fail.
pub(crate) fn phase_of(number: u8, transfer: Transfer) -> Phase
    ensures { result ≡ phase_of number transfer }
{
    match number {
        1 => Phase::Open(Mode::Address, transfer),
        2 => Phase::Open(Mode::Pointer, transfer),
        3 => Phase::Open(Mode::Writing, transfer),
        4 => Phase::Open(Mode::Reading, transfer),
        5 => Phase::Open(Mode::Deaf, transfer),
        _ => Phase::Closed,
    }
}

// Whether a phase is written so: a closed one carries nothing, and a mark is 0 or 1.
pub(crate) fn phase_well(number: u8, mark: u8, age: u32) -> bool
    ensures { result ≡ phase_well number mark age }
{
    match number {
        0 => (mark == 0) & (age == 0),
        _ => (number < 6) & (mark < 2),
    }
}
