// The slots in which a trip has an entry, by a walk from the deepest level up.
ghost use Rattle.std.specs.Prelude.{◌≡◌, cond, ◌+◌, ◌-◌, ◌*◌, ◌^◌, ◌<◌, ◌≤◌, length};
ghost use Rattle.ruler.specs.Ruler.{deepest};
ghost use Rattle.ruler.specs.Made.{scale};
ghost use Rattle.layout.specs.declared.Half.TheVariants.{Replicas};
ghost use Rattle.layout.specs.Words.{slot_number};
ghost use Rattle.layout.specs.Refusals.{Fits};
ghost use Rattle.store.specs.TripWalk.{in_half, visit, slots_of, slots_of_trip};
ghost use Rattle.lists.specs.Lists.{over};
ghost use Rattle.store.specs.TripSlots.{most_slots, Level, Wrote, visits_at};
ghost use Rattle.store.specs.Homes.{home_level, home};

use layout::Half;
use ruler::{Cell, Ruler};
use trip::Trip;

// Two slots of each level: more are never visited.
pub const MOST_SLOTS: usize = 22;

pub fn most_slots() -> usize
    ensures { result ≡ most_slots }
{
    MOST_SLOTS
}

fn is_of(half: Half, original: bool) -> bool
    ensures { result ≡ in_half half original }
{
    match half {
        Half::Originals => original,
        Half::Replicas => !original,
    }
}

// The "in" slot or "aft" slot of a partition before which there are so many.
fn slot_of(rank: u32, aft: bool) -> u32
    requires { rank < 2 ^ 31 - 1 }
    ensures { result ≡ 2 * rank + cond aft 1 0 }
{
    2 * rank + u32::from(aft)
}

// The number of a partition's "in" slot or "aft" slot.
pub fn slot_number(partition: Cell, aft: bool) -> u32
    requires { (partition.0 ≤ deepest) × (partition.1 ≤ 2 ^ partition.0) }
    ensures { result ≡ slot_number partition.0 partition.1 aft }
{
    slot_of(partition.rank(), aft)
}

// Writes the slot of a partition at place n, if the test passes and a trip whose cells of that level are first .. last has its entry there in
// this half; says how many slots are written then.
// The test is handed in, so that one contract says both answers.
fn visited(
    spots: &mut [u32],
    n: usize,
    half: Half,
    test: bool,
    partition: Cell,
    first: Cell,
    last: Cell,
) -> usize
    requires n_in_bounds { (n < length spots.old) × (partition.0 ≤ deepest) × (partition.1 ≤ 2 ^ partition.0) }
    requires same_level { (first.0 ≡ partition.0) × (last.0 ≡ partition.0) }
    ensures { Wrote (visit half test partition.0 partition.1 first.1 last.1) spots.old n result spots.new }
{
    if !test {
        return n;
    }
    if is_of(half, first.same(partition)) {
        spots[n] = slot_number(partition, !last.same(partition));
        return n + 1;
    }
    n
}

// The visits of one level, of which the partitions from lo on, up to hi, lie in a trip's cells; of that level they are first .. last.
fn visited_at(
    spots: &mut [u32],
    n: usize,
    half: Half,
    lo: Cell,
    hi: Cell,
    first: Cell,
    last: Cell,
) -> usize
    requires { (n + 2 ≤ length spots.old) × Level lo hi first last }
    ensures { Wrote (visits_at half lo hi first last) spots.old n result spots.new }
{
    let k = visited(spots, n, half, lo.parity() == 1, lo, first, last);
    visited(
        spots,
        k,
        half,
        hi.parity() == 1,
        hi.first_of_two(),
        first,
        last,
    )
}

// Writes the slots of a half in which a trip with the cells a .. b of the deepest level has an entry, and says how many. Each turn is a level.
// The room for slots is lent and used again for each row: one of its own would be cleared each time.
pub fn slots_of(half: Half, a: Cell, b: Cell, spots: &mut [u32]) -> usize
    requires { (a.0 ≤ deepest) × (b.0 ≡ a.0) × (a.1 < 2 ^ a.0) × (b.1 < 2 ^ a.0) × (most_slots ≤ length spots.old) }
    ensures { (result ≡ length (slots_of half a.0 a.1 b.1)) × (spots.new ≡ over (slots_of half a.0 a.1 b.1) spots.old) }
{
    let mut n: usize = 0;
    let mut lo = a;
    let mut hi = b.next();
    let mut first = a;
    let mut last = b;
    // It climbs: no loop over the levels would say when the cells are used up.
    loop {
        if hi.no_later(lo) {
            return n;
        }
        n = visited_at(spots, n, half, lo, hi, first, last);
        if lo.level() == 0 {
            return n;
        }
        lo = lo.next().above();
        hi = hi.above();
        first = first.above();
        last = last.above();
    }
}

// The level of the original entry of a trip with the cells a .. b of the deepest level. Its partition begins with the cell a: so many levels up a
// partition can begin there, so many levels up it has no more cells than a .. b, and the fewer of both are climbed.
fn home_level(a: Cell, b: Cell) -> u32
    requires { (a.0 ≤ deepest) × (b.0 ≡ a.0) × (a.1 ≤ b.1) × (b.1 < 2 ^ a.0) }
    ensures { result ≡ home_level a.0 a.1 b.1 a.0 }
{
    let begun = a.levels_begun();
    let spanned = a.levels_spanned(b);
    a.level() - begun.min(spanned)
}

// The slot of a trip's original entry.
pub fn home(ruler: Ruler, t: Trip) -> u32
    requires { Fits (scale ruler) t }
    ensures { result ≡ home (scale ruler) t }
{
    let a = ruler.bottom_cell(t.start);
    let b = ruler.bottom_cell(t.end);
    let level = home_level(a, b);
    let ends = b.at_level(level).same(a.at_level(level));
    slot_of(a.rank_at(level), !ends)
}

// Writes the slots of a trip's replicas, by the cells of its times, and says how many.
pub fn replica_slots(ruler: Ruler, t: Trip, spots: &mut [u32]) -> usize
    requires { Fits (scale ruler) t × (most_slots ≤ length spots.old) }
    ensures { (result ≡ length (slots_of_trip (scale ruler) Replicas t)) × (spots.new ≡ over (slots_of_trip (scale ruler) Replicas t) spots.old) }
{
    let first = ruler.bottom_cell(t.start);
    let last = ruler.bottom_cell(t.end);
    slots_of(Half::Replicas, first, last, spots)
}

// Writes the slots of a half in which a trip has an entry, and says how many. Its one original needs no walk.
pub fn trip_slots(ruler: Ruler, half: Half, t: Trip, spots: &mut [u32]) -> usize
    requires { Fits (scale ruler) t × (most_slots ≤ length spots.old) }
    ensures { (result ≡ length (slots_of_trip (scale ruler) half t)) × (spots.new ≡ over (slots_of_trip (scale ruler) half t) spots.old) }
{
    match half {
        Half::Originals => {
            spots[0] = home(ruler, t);
            1
        }
        Half::Replicas => replica_slots(ruler, t, spots),
    }
}
