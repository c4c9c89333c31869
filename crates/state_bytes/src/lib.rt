// A state as 61 bytes: both ways, and what it is looked at for. (rules 10.1 to 10.3)
#![tactic(auto)]

mod decoded;
mod encoded;
mod judged;
mod phases;
mod places;

pub use decoded::{
    alarm_of, bus_of, clock_of, control_of, countdown_of, hand_of, lock_of, plain, rtcf_of,
};
pub use encoded::bytes_of;
pub use judged::{is_state, pin_of};
pub use phases::{age_in, mark_in, number_in};
pub use places::{at, time_at};
