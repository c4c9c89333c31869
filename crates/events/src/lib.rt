// An event, what it answers, and what it is refused for. (rules 8.1 and 8.3)
#![tactic(auto)]

mod answer;
mod event;
mod kind;
mod refusal;

pub use answer::Answer;
pub use event::Event;
pub use kind::{Kind, fault};
pub use refusal::Refusal;
