// What happened: what an event does to a state, and what one pulse does. (section 11)
#![tactic(auto)]

mod deeds;
mod moments;

pub use deeds::{Deed, deed_of};
pub use moments::{Moment, moment_of};
