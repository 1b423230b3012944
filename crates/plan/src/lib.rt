// What a question looks at, said without the words of an index: the bounds of its relationship on a trip's start and end, its day, its range of
// cells with the kind of entries looked at over it, and at each level the stretches of the directory to go through.
#![tactic(auto)]

pub mod bounds;
pub mod looks;
pub mod range;
pub mod sought;
pub mod stretches;
