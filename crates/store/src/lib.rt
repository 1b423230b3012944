// The layer between words and trips: a directory half and its arena as a list of slots, each a list of trips.
#![tactic(auto)]

mod climbing;
pub mod counting;
pub mod directory;
pub mod entry;
pub mod filling;
pub mod frame;
mod gap;
pub mod half;
pub mod ids;
pub mod ordering;
pub mod part;
pub mod places;
pub mod search;
pub mod slot;
pub mod words;
