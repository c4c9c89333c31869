// The alarm: its fields, their enabling, its flag and its pin pulse.
#![tactic(auto)]

mod alarm;
mod matching;

pub use alarm::Alarm;
