// The hand of the clock: the time, the counter of the present second, the trim.
#![tactic(auto)]

mod hand;
mod trim;

pub use hand::Hand;
