// An event on a state's bytes. (rules 8.1 and 10.5)
ghost use Rattle.std.specs.Prelude.{◌≡◌};
ghost use Rattle.state_events.specs.Traffic.{done};
ghost use Rattle.state_events.specs.Event.{stepped_in, event_in, answered_in, lent, tell_in};

use crate::lent::put_state;
use crate::said::told;
use crate::traffic::{hear, read, start, stop};
use events::{Answer, Event};
use state_bytes::{bytes_of, clock_of, pin_of};

// Pulses and power loss can change every group: the whole state is decoded. (rule 8.1)
fn step_whole(s: &mut [u8], event: Event)
    ensures { s.new ≡ stepped_in s.old event.kind event.byte event.count }
{
    let stepped = clock_of(s).step(event);
    put_state(s, bytes_of(stepped.clock));
}

// Events of the bus move few bytes; by the number of the kind, since `tell_in` looks at no field that it does not use. (rule 8.1)
#[tactic(auto, unfolding(crate::specs::Event::event_in))]
fn answer(s: &mut [u8], event: Event) -> Answer
    ensures { done result s.new ≡ event_in s.old event.kind event.byte event.count }
{
    match event.kind {
        0 => {
            start(s);
            Answer::Quiet
        }
        1 => {
            stop(s);
            Answer::Quiet
        }
        2 => hear(s, event.byte),
        3..=4 => read(s, event.kind == 3),
        _ => {
            step_whole(s, event);
            Answer::Quiet
        }
    }
}

// The event, or nothing where its fields are refused; the refusal is the number that C is told. (rule 8.3)
fn answered(s: &mut [u8], refusal: u8, event: Event) -> Answer
    ensures { done result s.new ≡ answered_in s.old refusal event.kind event.byte event.count }
{
    if refusal == 0 {
        answer(s, event)
    } else {
        Answer::Quiet
    }
}

// The event and the pin that it leaves, told in one number: a step and the run of a file both go by it. (rules 8.1 and 10.5)
#[tactic(auto, unfolding(crate::specs::Event::tell_in))]
pub fn tell(s: &mut [u8], refusal: u8, event: Event) -> u32
    ensures { lent result s.new ≡ tell_in s.old refusal event.kind event.byte event.count }
{
    // Asked here, so that the compiler asks for no place behind it; 1 is the number of row 1, as C is told it.
    if s.len() != 61 {
        return 1;
    }
    let answer = answered(s, refusal, event);
    told(refusal, pin_of(s), answer)
}
