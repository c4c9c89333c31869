// What events and entries answer. (rules 8.1, 8.3 and 8.4)
use crate::clock::Clock;
use control::Level;
use events::{Answer, Refusal};

// An event's state and answer.
#[derive(Clone, Copy)]
pub struct Answered {
    pub clock: Clock,
    pub answer: Answer,
}

// What a step hands back: `step_of` tells state, answer and pin beside a refusal too.
#[derive(Clone, Copy)]
pub struct Stepped {
    pub refusal: Option<Refusal>,
    pub clock: Clock,
    pub answer: Answer,
    pub pin: Level,
}

// What a power-on hands back: `power_on_of` tells a state beside a refusal too.
#[derive(Clone, Copy)]
pub struct Started {
    pub refusal: Option<Refusal>,
    pub clock: Clock,
}
