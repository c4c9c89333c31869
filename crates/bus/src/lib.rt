// The bus as the chip sees it: the pointer and the phase of the transfer.
#![tactic(auto)]

mod bytes;
mod phase;
mod reads;

pub use bytes::{Effect, Heard};
pub use phase::{Bus, Mode, Phase, Transfer, next};
pub use reads::Read;
