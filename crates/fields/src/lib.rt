// What a byte of the clock may hold and how it steps: BCD fields, hours in both modes, the time of day.
#![tactic(auto)]

mod digits;
mod hours;
mod times;

pub use digits::{Field, byte, pick, value};
pub use hours::{HourMode, mode};
pub use times::{TimeOfDay, time_of_day};
