// What changes the bytes of a state: an event, and a whole state written over them. (rules 8.1 and 10.5)
#![tactic(auto)]

mod event;
mod lent;
mod put;
mod said;
mod traffic;
mod written;

pub use event::tell;
pub use lent::put_state;
pub use said::told;
