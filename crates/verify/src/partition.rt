// One trip in one partition: whether it may stand there.
ghost use Rattle.std.specs.Prelude.{◌≡◌, ◌^◌, ◌<◌, ◌≤◌};
ghost use Rattle.ruler.specs.Ruler.{deepest};
ghost use Rattle.ruler.specs.Made.{scale};
ghost use Rattle.layout.specs.Refusals.{fits};
ghost use Rattle.verify.specs.Frames.{has_cell, AtLevel, starts_of, ends_of, frame_of, FrameAt, stands_in};

use layout::Half;
use ruler::{Cell, Ruler, power};
use trip::Trip;

// Some cells of one level: from one on, up to another that is not of them. As `Span` of plan is over times; cells have no order of their own.
#[derive(Clone, Copy)]
pub struct Cells {
    from: Cell,
    until: Cell,
}

impl Cells {
    #[tactic(auto, unfolding(crate::specs::Frames::has_cell))]
    fn has(self, cell: Cell) -> bool
        requires { AtLevel cell.0 self }
        ensures { result ≡ has_cell self cell }
    {
        self.from.no_later(cell) && !self.until.no_later(cell)
    }
}

// Where a partition's entries of this half start: originals in its first cell, replicas before it. The parent of an odd partition begins
// before it, and would hold a trip that starts no later than the parent does.
fn starts_of(m: u32, half: Half, partition: Cell) -> Cells
    requires { (m ≤ deepest) × (partition.0 ≤ m) × (partition.1 < 2 ^ partition.0) }
    ensures { result ≡ starts_of m half partition.0 partition.1 }
{
    let first = partition.first_at(m);
    match half {
        Half::Originals => Cells {
            from: first,
            until: first.next(),
        },
        Half::Replicas => {
            if partition.parity() == 0 {
                return Cells {
                    from: Cell::at(m, 0),
                    until: first,
                };
            }
            Cells {
                from: partition.above().first_at(m).next(),
                until: first,
            }
        }
    }
}

// Where its "in" or "aft" entries end: in its last cell, or after it. The parent of an even partition ends after it, and would hold a trip that
// ends no earlier than the parent does.
fn ends_of(m: u32, aft: bool, partition: Cell) -> Cells
    requires { (m ≤ deepest) × (partition.0 ≤ m) × (partition.1 < 2 ^ partition.0) }
    ensures { result ≡ ends_of m aft partition.0 partition.1 }
{
    let last = partition.last_at(m);
    let after = last.next();
    if !aft {
        return Cells {
            from: last,
            until: after,
        };
    }
    if (partition.level() == 0) | (partition.parity() == 1) {
        return Cells {
            from: after,
            until: Cell::at(m, power(m)),
        };
    }
    Cells {
        from: after,
        until: partition.above().last_at(m),
    }
}

// The level-m cells in which the trips of a slot start and end. It is found once for a slot; a trip is then tested by its own two cells.
#[derive(Clone, Copy)]
pub struct Frame {
    starts: Cells,
    ends: Cells,
}

pub fn frame_of(m: u32, half: Half, aft: bool, partition: Cell) -> Frame
    requires { (m ≤ deepest) × (partition.0 ≤ m) × (partition.1 < 2 ^ partition.0) }
    ensures { result ≡ frame_of m half aft partition.0 partition.1 }
{
    Frame {
        starts: starts_of(m, half, partition),
        ends: ends_of(m, aft, partition),
    }
}

// Whether the trip passes tests 4, 5 and 16.
pub fn fits(ruler: Ruler, t: Trip) -> bool
    ensures { result ≡ fits (scale ruler) t }
{
    ruler.spans(t.start, t.end) & !t.never_runs()
}

// Whether the trip may stand in a slot of this frame.
#[tactic(auto, unfolding(crate::specs::Frames::stands_in))]
pub fn stands(ruler: Ruler, frame: Frame, t: Trip) -> bool
    requires { FrameAt (scale ruler).m frame }
    ensures { result ≡ stands_in (scale ruler) frame t }
{
    fits(ruler, t)
        && frame.starts.has(ruler.bottom_cell(t.start))
        && frame.ends.has(ruler.bottom_cell(t.end))
}
