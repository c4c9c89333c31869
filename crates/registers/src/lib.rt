// What the registers are made of: fixed bits, the seven bytes of a time by place, counters.
#![tactic(auto)]

mod bits;
mod counters;
mod fixed;
mod seven;

pub use bits::bit_at;
pub use counters::{less, more, reached, turned, within};
pub use fixed::{clear, clear_time, kept};
pub use seven::{byte_at, with_byte};
