// The walk of a plan over the words of an index: level by level, the parts of the arenas that its looks see. What is done with them is a visitor's:
// `count` and `list` have one each.
#![tactic(auto)]

pub mod count;
mod cut;
pub mod list;
mod look;
pub mod visit;
