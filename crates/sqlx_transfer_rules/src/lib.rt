//! The language of transfers and its rules: what each line says, the reply to each event, and what is written.
#![tactic(auto)]

mod bank_line;
mod event;
mod fields;
pub mod laws;
mod reading;
mod reply;

pub use bank_line::BankLine;
pub use event::{Event, Met};
pub use reading::{read_event, read_opening};
pub use reply::{Reply, fill_total};
