//! What a pool is over its lists of tickets, loans and idle connections: its options, the types of what its steps are
//! told and answer, the lists themselves, and in `specs/` what each step makes of the lists.
#![tactic(auto)]

mod held_list;
mod idle_list;
mod idle_row;
mod options;
mod shared;
mod steps;
mod ticket;
mod tickets;

pub use held_list::HeldList;
pub use idle_list::IdleList;
pub use idle_row::beyond;
pub use options::PoolOptions;
pub use shared::Shared;
pub use steps::{
    AfterConnect, AfterTest, CloseState, Given, Idle, Lent, Numbers, Openings, Polled, Returned,
    Start, Tried, Verdict,
};
pub use ticket::{OwnedConn, Phase, Ticket};
pub use tickets::Tickets;
