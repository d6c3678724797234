//! Places in lists, found without a look at the others: things with numbers of their own, at places with gaps between
//! them; the line of a pool's waiting tickets, kept as an edge; and the steps that such a search takes, counted.
//!
//! Where the numbers rise, a number tells its place or it is searched by halves; else the places are noted. A ticket that
//! waits may leave the line exactly where its number is below the edge, so nobody has to count who precedes it.
#![tactic(auto)]

pub mod laws;
mod line;
mod notes;
mod numbering;
mod rising_places;
mod steps;
mod took;

pub use line::Line;
pub use notes::Notes;
pub use numbering::Numbering;
pub use rising_places::{
    Place, drop_first_gaps, drop_last_gaps, find_place, first_from, make_room,
};
pub use steps::Steps;
pub use took::Took;
