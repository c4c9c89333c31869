// The boundary for boards in C and Rust: include/tallowreed.h says it for C. (rules 10.1 to 10.8)
#![tactic(auto)]

ghost use Rattle.std.specs.Prelude.{◌≡◌, cond};
ghost use Rattle.state_bytes.specs.Decoded.{clock_of};
ghost use Rattle.state_events.specs.Event.{lent};
ghost use Rattle.sd2068_abi.specs.Abi.{accepted_of, lent_run, power_of, step_of, pin_of, register_of, run_of};

use crate::ran::ran;
use events::{Answer, Event, fault};
use script::{Ran, Refused, run};
use sd2068::{Clock, power_on};
use state_bytes::{bytes_of, clock_of, is_state, plain};
use state_events::{put_state, tell, told};

mod ran;

// Told where the lent state has no place for 61 bytes; no refusal has this number. (rules 10.4 and 10.8)
const NO_PLACE: u8 = 255;

// Told where the lent bytes are no state's: row 1 of the table; by the other number entries ask for a length themselves. (rules 10.5 to 10.7)
const NO_STATE: u32 = 1;

// The length of a state. (rule 10.1)
pub fn tallowreed_state_size() -> usize
    ensures { result ≡ 61 }
{
    61
}

// Power-on from start bytes. (rule 10.4)
#[tactic(auto, unfolding(crate::specs::Abi::power_of))]
pub fn tallowreed_power_on(start: &[u8], state: &mut [u8]) -> u8
    ensures { lent result state.new ≡ power_of start.now state.old }
{
    if state.len() != 61 {
        return NO_PLACE;
    }
    let on = power_on(start);
    put_state(state, bytes_of(on.clock));
    on.refusal.map_or(0, |refusal| refusal.number())
}

// One event, in the numbers that C has. (rule 10.5)
#[tactic(auto, unfolding(crate::specs::Abi::step_of, crate::specs::Abi::accepted_of))]
pub fn tallowreed_step(state: &mut [u8], kind: u8, byte: u8, count: u16) -> u32
    ensures { lent result state.new ≡ step_of state.old kind byte count }
{
    if state.len() != 61 {
        return NO_STATE;
    }
    if !is_state(state) {
        return NO_STATE;
    }
    let event = Event { kind, byte, count };
    let refusal = fault(event).err().map_or(0, |refusal| refusal.number());
    tell(state, refusal, event)
}

// The clock that lent bytes stand for, if they are exactly those of a well-formed state; in line, for speed. (rule 10.3)
#[inline(always)]
#[tactic(auto, unfolding(crate::specs::Abi::accepted_of, state_bytes::specs::Decoded::is_state))]
fn accepted(state: &[u8]) -> Option<Clock>
    ensures { result ≡ cond (accepted_of state.now) (Some (clock_of state.now)) None }
{
    if state.len() != 61 {
        return None;
    }
    let clock = clock_of(state);
    (clock.well_formed() & plain(state)).then_some(clock)
}

// The pin. (rule 10.6)
#[tactic(auto, unfolding(crate::specs::Abi::pin_of, crate::specs::Abi::seen_of, crate::specs::Abi::accepted_of, state_bytes::specs::Decoded::is_state))]
pub fn tallowreed_pin(state: &[u8]) -> u32
    ensures { result ≡ pin_of state.now }
{
    accepted(state).map_or(NO_STATE, |clock| told(0, clock.pin(), Answer::Quiet))
}

// A register as it stands. (rule 10.7)
#[tactic(auto, unfolding(crate::specs::Abi::register_of, crate::specs::Abi::seen_of, crate::specs::Abi::accepted_of, state_bytes::specs::Decoded::is_state))]
pub fn tallowreed_register(state: &[u8], address: u8) -> u32
    ensures { result ≡ register_of state.now address }
{
    accepted(state).map_or(NO_STATE, |clock| {
        told(0, clock.pin(), Answer::Byte(clock.register(address)))
    })
}

// A whole script file. (rule 10.8)
#[tactic(auto, unfolding(crate::specs::Abi::run_of))]
pub fn tallowreed_run(file: &[u8], output: &mut [u8], state: &mut [u8]) -> u64
    ensures { lent_run result output.new state.new ≡ run_of file.now output.old state.old }
{
    if state.len() != 61 {
        return ran(NO_PLACE, 0, 0);
    }
    let (number, clock) = match run(file, output) {
        Ok(Ran { count, clock }) => (ran(0, 0, count), clock),
        Err(
            Refused {
                refusal,
                index,
                clock,
            },
        ) => (ran(refusal.number(), index, 0), clock),
    };
    put_state(state, bytes_of(clock));
    number
}
