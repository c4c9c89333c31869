// The SD2068: one state, and what power, pulses and the bus do to it.
#![tactic(auto)]

mod answers;
mod clock;
mod controls;
mod pin;
mod power;
mod pulse;
mod reading;
mod step;
mod transfer;
mod well_formed;
mod writing;

pub use answers::{Started, Stepped};
pub use clock::Clock;
pub use power::power_on;
