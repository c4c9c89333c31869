// The lock, the control registers and the levels of the pin.
#![tactic(auto)]

mod control;
mod lock;
mod pin;

pub use control::Control;
pub use lock::{Lock, ctr1, ctr2};
pub use pin::{Level, bell, frequency};
