// A replica's original: a search for it in the slot where it has to stand.
ghost use Rattle.std.specs.Prelude.{◌≡◌, true, cond, ◌+◌, ◌/◌, leb, length};
ghost use Rattle.lists.specs.Sifting.{InOrder};
ghost use Rattle.ruler.specs.Made.{scale};
ghost use Rattle.layout.specs.declared.Half.TheVariants.{Originals};
ghost use Rattle.layout.specs.declared.Subdivision.TheVariants.{OIn};
ghost use Rattle.layout.specs.Words.{entry_words, rows, order, half_length};
ghost use Rattle.layout.specs.Refusals.{fits};
ghost use Rattle.store.specs.Ordered.{no_trip, key_place, key_by};
ghost use Rattle.store.specs.Parts.{PartThere};
ghost use Rattle.verify.specs.Passing.{each, some};
ghost use Rattle.verify.specs.Local.{half_ok, slot_at, slots_ok, is_known};
ghost use Rattle.trip.specs.Trips.{same_trip};

use crate::half::HalfWords;
use layout::ENTRY_WORDS;
use ruler::Ruler;
use store::entry::{START_AT, trip_at};
use store::ordering::key_at;
use store::part::part_there;
use store::places::home;
use trip::Trip;

// A trip that is looked for, with its key in the order of originals.
#[derive(Clone, Copy)]
struct Keyed {
    trip: Trip,
    key: u64,
    ghost keyed: { key ≡ key_by (key_place OIn) trip },
}

// The later of two places, if the key that stands there is not above the one that is looked for; else the other.
fn narrowed(there: u64, key: u64, later: usize, low: usize) -> usize
    ensures { result ≡ cond (leb there key) later low }
{
    if there <= key { later } else { low }
}

// Whether the trip is one of a part that is in the order of originals: by halving, so many steps as the part's length tells.
// A halving of its own: `holds` of `store` goes over words in fixed steps, this one over keys of two words each.
fn has_trip(part: &[u32], n: usize, sought: Keyed) -> bool
    requires counted { n ≡ length part.now / entry_words }
    requires in_order { InOrder (order OIn) no_trip (rows part.now) (length (rows part.now)) }
    ensures { result ≡ some (same_trip sought.trip) (rows part.now) }
{
    if n == 0 {
        return false;
    }
    let mut low: usize = 0;
    let mut width = n;
    // It halves.
    while 1 < width {
        let half = width / 2;
        let there = key_at(part, START_AT, low + half);
        low = narrowed(there, sought.key, low + half, low);
        width -= half;
    }
    sought.trip.same(trip_at(part, low))
}

// Whether the trip stands in slot k, which is in the order of originals.
fn slot_has(originals: HalfWords, k: usize, sought: Keyed) -> bool
    requires part_there { PartThere originals.dir.now originals.arena.now k (k + 1) }
    requires in_order { InOrder (order OIn) no_trip (slot_at originals.dir.now originals.arena.now k)
        (length (slot_at originals.dir.now originals.arena.now k)) }
    ensures { result ≡ some (same_trip sought.trip) (slot_at originals.entry.dir.now originals.entry.arena.now k) }
{
    let entries = originals.dir[k + 1] - originals.dir[k];
    let part = part_there(originals.dir, originals.arena, k, k + 1);
    has_trip(part, entries as usize, sought)
}

// Whether the original of a trip stands in its slot.
fn is_known(ruler: Ruler, originals: HalfWords, sought: Keyed) -> bool
    requires dir_len { length originals.dir.now ≡ half_length (scale ruler).m }
    requires originals_passed { (half_ok originals.dir.now originals.arena.now ≡ true)
        × (slots_ok (scale ruler) Originals originals.dir.now originals.arena.now ≡ true) }
    requires trip_fits { fits (scale ruler) sought.trip ≡ true }
    ensures { result ≡ is_known (scale ruler) originals.entry.dir.now originals.entry.arena.now sought.trip }
{
    slot_has(originals, home(ruler, sought.trip) as usize, sought)
}

// Whether the original of each trip of a part stands in its slot. The trips are known to fit.
pub fn all_known(ruler: Ruler, originals: HalfWords, part: &[u32]) -> bool
    requires dir_len { length originals.dir.now ≡ half_length (scale ruler).m }
    requires originals_passed { (half_ok originals.dir.now originals.arena.now ≡ true)
        × (slots_ok (scale ruler) Originals originals.dir.now originals.arena.now ≡ true) }
    requires rows_fit { each (fits (scale ruler)) (rows part.now) ≡ true }
    ensures { result ≡ each (is_known (scale ruler) originals.entry.dir.now originals.entry.arena.now) (rows part.now) }
{
    let n = part.len() / ENTRY_WORDS;
    for k in 0..n {
        let sought = Keyed {
            trip: trip_at(part, k),
            key: key_at(part, START_AT, k),
        };
        if !is_known(ruler, originals, sought) {
            return false;
        }
    }
    true
}
