// The stretches of the directory that a plan goes through at each level, and in which of them every entry is known to match.
ghost use Rattle.std.specs.Prelude.{◌≡◌, ◌^◌, ◌<◌, ◌≤◌};
ghost use Rattle.ruler.specs.Ruler.{deepest};
ghost use Rattle.layout.specs.Words.{half_length};
ghost use Rattle.plan.specs.Plan.{Ranged, slot_at, sure_first, sure_last, stretch, arranged, stretches_at};

use crate::range::Plan;
use layout::directory::half_length;
use ruler::Cell;

// The first slot, in its half, of the partition of a level in which a cell lies.
#[tactic(auto, using(ruler::proofs::CellLevels::up_lt), unfolding(crate::specs::Plan::first_slot, layout::specs::Words::partition_number))]
fn slot_at(cell: Cell, level: u32) -> usize
    requires { (level ≤ cell.0) × (cell.0 ≤ deepest) × (cell.1 < 2 ^ cell.0) }
    ensures { result ≡ slot_at cell level }
{
    2 * cell.at_level(level).rank() as usize
}

// Whether a trip in the first partition is known to end after the first cell: that cell is not the partition's last.
#[tactic(auto, unfolding(crate::specs::Plan::sure_first))]
fn sure_first(plan: Plan, level: u32) -> bool
    requires ranged { Ranged plan.low.0 plan }
    requires level_le_low { level ≤ plan.low.0 }
    ensures { result ≡ sure_first plan level }
{
    plan.quick & !plan.low.next().begins(level)
}

// Whether a trip in the last partition is known to start before the last cell: that cell is not the partition's first.
#[tactic(auto, unfolding(crate::specs::Plan::sure_last))]
fn sure_last(plan: Plan, level: u32) -> bool
    requires ranged { Ranged plan.low.0 plan }
    requires level_le_low { level ≤ plan.low.0 }
    ensures { result ≡ sure_last plan level }
{
    plan.quick & !plan.high.begins(level)
}

// The entries from one word of a directory up to another, and whether they are known to match.
#[derive(Clone, Copy)]
pub struct Stretch {
    pub from: usize,
    pub to: usize,
    pub sure: bool,
}

impl Stretch {
    pub fn new(from: usize, to: usize, sure: bool) -> Stretch
        ensures { result ≡ stretch from to sure }
    {
        Stretch { from, to, sure }
    }
}

// What is gone through at a level: the originals of the first partition, of those between and of the last, and the replicas.
#[derive(Clone, Copy)]
pub struct Stretches {
    pub first: Stretch,
    pub between: Stretch,
    pub last: Stretch,
    pub replicas: Stretch,
}

// The stretches from the first partition's slot p to the last one's slot q. Where the two are one partition, it is the last. Both are slots
// of a half of a directory, which is no longer than the deepest ruler's.
// What it is told is one call's alone: a struct of it would be made there and be taken apart here.
#[tactic(auto, using(layout::proofs::Numbers::half_small), unfolding(crate::specs::Plan::arranged))]
fn arranged(
    p: usize,
    q: usize,
    slots: usize,
    quick: bool,
    first: bool,
    last: bool,
    replicas: Stretch,
) -> Stretches
    requires { (p < half_length deepest) × (q < half_length deepest) × (slots ≤ 2) }
    ensures { result ≡ arranged p q slots quick first last replicas }
{
    if p < q {
        return Stretches {
            first: Stretch::new(p, p + 2, first),
            between: Stretch::new(p + 2, q, quick),
            last: Stretch::new(q, q + slots, last),
            replicas,
        };
    }
    let none = Stretch::new(p, p, quick);
    Stretches {
        first: none,
        between: none,
        last: Stretch::new(p, p + slots, first & last),
        replicas,
    }
}

// The stretches of a level.
#[tactic(auto, using(crate::proofs::Ranges::slots_in, crate::proofs::Ranges::few_slots, layout::proofs::Numbers::half_small), unfolding(crate::specs::Plan::stretches_at))]
pub fn stretches_at(plan: Plan, level: u32) -> Stretches
    requires ranged { Ranged plan.low.0 plan }
    requires level_le_low { level ≤ plan.low.0 }
    ensures { result ≡ stretches_at plan level }
{
    let p = slot_at(plan.low, level);
    let q = slot_at(plan.high, level);
    let first = sure_first(plan, level);
    let last = sure_last(plan, level);
    let half = half_length(plan.low.level());
    let replicas = Stretch::new(half + p, half + p + plan.kind.replica_slots(), first);
    let slots = plan.kind.original_slots();
    arranged(p, q, slots, plan.quick, first, last, replicas)
}
