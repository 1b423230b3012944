// What is looked at on a level, as a short numbered list of looks. Whoever walks a plan, to count, to list or for another end, goes
// through these and does the same at each of them.
ghost use Rattle.std.specs.Prelude.{◌≡◌};
ghost use Rattle.plan.specs.Looks.{front_end, front_of, back_of, look, look_at};

use crate::stretches::{Stretch, Stretches};
use layout::Half;

// In what order the entries of a look stand, where they are tested.
#[derive(Clone, Copy)]
pub enum Order {
    ByStart,
    ByEnd,
    // By ids, or slot after slot: nothing that tells of times.
    Other,
}

// The entries of a stretch of one half.
#[derive(Clone, Copy)]
pub struct Look {
    pub half: Half,
    pub order: Order,
    pub stretch: Stretch,
}

impl Look {
    fn new(half: Half, order: Order, stretch: Stretch) -> Look
        ensures { result ≡ look half order stretch }
    {
        Look {
            half,
            order,
            stretch,
        }
    }
}

// How many looks a level has, and how many of them are at the originals, which come first.
pub const LOOKS: usize = 7;

pub const ORIGINAL_LOOKS: usize = 5;

// Where the front of a partition's stretch ends: after the "in" slot. Where all its entries are known to match, one look takes both slots.
fn front_end(stretch: Stretch) -> usize
    ensures { result ≡ front_end stretch }
{
    if stretch.sure {
        return stretch.to;
    }
    if stretch.from < stretch.to {
        return stretch.from + 1;
    }
    stretch.from
}

fn front_of(stretch: Stretch) -> Stretch
    ensures { result ≡ front_of stretch }
{
    Stretch::new(stretch.from, front_end(stretch), stretch.sure)
}

fn back_of(stretch: Stretch) -> Stretch
    ensures { result ≡ back_of stretch }
{
    Stretch::new(front_end(stretch), stretch.to, stretch.sure)
}

// Look k of a level: the first partition, what is between, the last partition, the replicas.
// Looks are numbered and made one at a time: a list of them needs more stack and steps.
#[tactic(auto, unfolding(crate::specs::Looks::look_at))]
pub fn look_at(level: Stretches, k: usize) -> Look
    ensures { result ≡ look_at level k }
{
    match k {
        0 => Look::new(Half::Originals, Order::ByStart, front_of(level.first)),
        1 => Look::new(Half::Originals, Order::ByStart, back_of(level.first)),
        2 => Look::new(Half::Originals, Order::Other, level.between),
        3 => Look::new(Half::Originals, Order::ByStart, front_of(level.last)),
        4 => Look::new(Half::Originals, Order::ByStart, back_of(level.last)),
        5 => Look::new(Half::Replicas, Order::ByEnd, front_of(level.replicas)),
        _ => Look::new(Half::Replicas, Order::Other, back_of(level.replicas)),
    }
}
