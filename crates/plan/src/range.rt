// A plan is a range of level-m cells and the kind of entries looked at over it. The fourteen relationships differ in data only.
ghost use Rattle.std.specs.Prelude.{◌≡◌, true};
ghost use Rattle.ruler.specs.Made.{scale};
ghost use Rattle.layout.specs.Refusals.{OnRuler};
ghost use Rattle.plan.specs.Plan.{original_slots, replica_slots, plan, plan_of, plan_for};

use ruler::{Cell, Ruler, power};
use trip::{Relationship, Window};

#[derive(Clone, Copy)]
pub enum Kind {
    // The originals of the range's partitions.
    Starting,
    // The "in" entries of the partition of one cell, originals and replicas.
    Ending,
    // The originals of the range's partitions, and the replicas of the first of them.
    Crossing,
}

impl Kind {
    // How many slots of the range's last partition are looked at among the originals: "in" alone, or "in" and "aft".
    pub(crate) fn original_slots(self) -> usize
        ensures { result ≡ original_slots self }
    {
        match self {
            Kind::Starting | Kind::Crossing => 2,
            Kind::Ending => 1,
        }
    }

    // And how many of its first partition among the replicas.
    pub(crate) fn replica_slots(self) -> usize
        ensures { result ≡ replica_slots self }
    {
        match self {
            Kind::Starting => 0,
            Kind::Ending => 1,
            Kind::Crossing => 2,
        }
    }
}

// Where the plan is quick, a trip that ends after the first cell and starts before the last one matches, untested.
#[derive(Clone, Copy)]
pub struct Plan {
    pub kind: Kind,
    pub low: Cell,
    pub high: Cell,
    pub quick: bool,
}

impl Plan {
    fn new(kind: Kind, low: Cell, high: Cell) -> Plan
        ensures { result ≡ plan kind low high }
    {
        Plan {
            kind,
            low,
            high,
            quick: false,
        }
    }
}

// The plan of a relationship, for a window whose times have the cells f and l; first and last are the ruler's own.
fn plan_of(relationship: Relationship, f: Cell, l: Cell, first: Cell, last: Cell) -> Plan
    ensures { result ≡ plan_of relationship f l first last }
{
    match relationship {
        Relationship::Equals | Relationship::Starts | Relationship::StartedBy => Plan::new(
            Kind::Starting,
            f,
            f,
        ),
        Relationship::Finishes | Relationship::FinishedBy => Plan::new(Kind::Ending, l, l),
        Relationship::Meets => Plan::new(Kind::Starting, l, l),
        Relationship::MetBy => Plan::new(Kind::Ending, f, f),
        Relationship::Overlaps => Plan::new(Kind::Crossing, l, l),
        Relationship::OverlappedBy | Relationship::ContainedBy => Plan::new(Kind::Crossing, f, f),
        Relationship::Contains => Plan::new(Kind::Starting, f, l),
        Relationship::Before => Plan::new(Kind::Starting, l, last),
        Relationship::After => Plan::new(Kind::Starting, first, f),
        Relationship::GOverlaps => Plan {
            kind: Kind::Crossing,
            low: f,
            high: l,
            quick: true,
        },
    }
}

// The plan of a question on a ruler.
#[tactic(auto, unfolding(crate::specs::Plan::plan_for))]
pub fn plan_for(ruler: Ruler, relationship: Relationship, q: Window) -> Plan
    requires { OnRuler (scale ruler) q.start q.end }
    ensures { result ≡ plan_for (scale ruler) relationship q }
{
    let m = ruler.bottom();
    let f = ruler.bottom_cell(q.start);
    let l = ruler.bottom_cell(q.end);
    let first = Cell::at(m, 0);
    let last = Cell::at(m, power(m) - 1);
    plan_of(relationship, f, l, first, last)
}
