// One turn of the session program: what a line does to the index, and what is written for it.
#![tactic(auto)]

use ruler::Numbers;

mod reply;
pub mod turn;

// What a turn leaves: the ruler of the session, if a D line was accepted, how many bytes of the reply were written, and whether the next
// line is read.
#[derive(Clone, Copy)]
pub struct Turned {
    pub desk: Option<Numbers>,
    pub written: usize,
    pub more: bool,
}
