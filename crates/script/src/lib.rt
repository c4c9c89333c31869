// Script files: what they are refused for, what they list, and their run into a lent output. (section 9)
#![tactic(auto)]

mod checks;
mod contents;
mod event;
mod file;
mod header;
mod lines;
mod refused;
mod sections;

pub use contents::{listed, start};
pub use file::{Ran, Refused, run};
pub use refused::{LONGEST_REFUSED, put_refused};
