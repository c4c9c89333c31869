// The time that a clock keeps: one second on for any bytes, second numbers, any number of seconds on.
#![tactic(auto)]

mod lent;
mod numbers;
mod time;
mod weekdays;

pub use lent::time_in;
pub use numbers::time_at;
pub use time::Time;
