// Months, the table of their first days, and dates with their day numbers.
#![tactic(auto)]

mod date;
mod lent;
mod months;
mod table;

pub use date::{Date, date_at};
pub use lent::date_in;
pub use table::first_days;
