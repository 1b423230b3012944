// Search in a slot that is in order.
ghost use Rattle.std.specs.Prelude.{◌≡◌, Bool, length};
ghost use Rattle.trip.specs.declared.Trip.{Trip};
ghost use Rattle.lists.specs.Sifting.{InOrder};
ghost use Rattle.layout.specs.Words.{rows, order};
ghost use Rattle.store.specs.Ordered.{preceding, no_trip, Tells, InFront, Parted};

use crate::entry;
use layout::{ENTRY_WORDS, Subdivision};
use trip::Trip;

// How many entries of a part, from the front, pass a test, by halving. Where one that passes stands after one that does not, the place tells
// nothing.
pub fn entries_while<F: Fn(Trip) -> bool>(part: &[u32], passes: F) -> usize
    requires { F.IsAlwaysCallable passes }
    ensures { (test : Trip → Bool) → Tells (F.post passes) test → InFront test part.now → Parted test part.now result }
{
    let mut low: usize = 0;
    let mut high = part.len() / ENTRY_WORDS;
    // It halves: the library's search goes word by word, and an entry is four words.
    while low < high {
        let mid = low + (high - low) / 2;
        if passes(entry::trip_at(part, mid)) {
            low = mid + 1;
        } else {
            high = mid;
        }
    }
    low
}

// The place of a trip in a slot: how many of the slot's entries come before it. There it is put in, and there it stands if the slot has it.
pub fn find_place(part: &[u32], d: Subdivision, t: Trip) -> usize
    requires { InOrder (order d) no_trip (rows part.now) (length (rows part.now)) }
    ensures { result ≡ preceding d t (rows part.now) }
{
    entries_while(part, |u| entry::precedes(d, u, t))
}
