// What an edit asks before it writes anything.
ghost use Rattle.std.specs.Prelude.{◌≡◌, ◌+◌, ◌*◌, ◌<◌, ◌≤◌, ltb, length};
ghost use Rattle.ruler.specs.Made.{scale};
ghost use Rattle.layout.specs.Outcomes.{Accepted};
ghost use Rattle.layout.specs.Words.{entry_words, rows};
ghost use Rattle.layout.specs.Refusals.{row_tests, check_outcome, add_outcome, Fits};
ghost use Rattle.store.specs.WordsLent.{index_of};
ghost use Rattle.store.specs.TripWalk.{slots_of_trip};
ghost use Rattle.store.specs.Passes.{most_entries};
ghost use Rattle.store.specs.TripSlots.{most_slots};
ghost use Rattle.edit.specs.Search.{IsPlaceOf};

use layout::{ENTRY_WORDS, Half, Refusal, Rejection, row_outcome};
use ruler::Ruler;
use store::half::{entries_of, trips_of};
use store::places;
use store::words::Words;
use trip::Trip;

// The place of the trip of an id among the entries of a part, if one has it.
pub fn find_id(part: &[u32], id: u32) -> Option<usize>
    ensures { IsPlaceOf id (rows part.now) result }
{
    for k in 0..part.len() / ENTRY_WORDS {
        if part[ENTRY_WORDS * k] == id {
            return Some(k);
        }
    }
    None
}

// How many entries a trip has in a half.
fn entries_of_trip(ruler: Ruler, half: Half, t: Trip) -> usize
    requires { Fits (scale ruler) t }
    ensures { (result ≡ length (slots_of_trip (scale ruler) half t)) × (result ≤ most_slots) }
{
    let mut spots = [0u32; places::MOST_SLOTS];
    places::trip_slots(ruler, half, t, &mut spots)
}

// Whether an arena of so many words lacks room for `used` entries and those of the trip.
fn lacks_room(ruler: Ruler, half: Half, used: usize, words: usize, t: Trip) -> bool
    requires { Fits (scale ruler) t × (used ≤ most_entries) }
    ensures { result ≡ ltb words (entry_words * (used + length (slots_of_trip (scale ruler) half t))) }
{
    words < ENTRY_WORDS * (used + entries_of_trip(ruler, half, t))
}

// The tests of a trip beside those that are there.
fn trip_outcome(ruler: Ruler, there: &[u32], t: Trip) -> Result<(), Rejection>
    ensures { result ≡ row_tests (scale ruler) (rows there.now) t 0 Accepted }
{
    let taken = find_id(there, t.id).is_some();
    row_outcome(ruler, t, taken, 0)
}

// The outcome of an addition to words that are an index: 2, then those of the trip, then 7.
pub fn add_outcome(ruler: Ruler, words: Words, t: Trip) -> Result<(), Rejection>
    requires { check_outcome (scale ruler) (index_of words) ≡ Accepted }
    ensures { result ≡ add_outcome (scale ruler) (index_of words.entry) t }
{
    let trips = trips_of(ruler.bottom(), words.directory);
    let copies = entries_of(words.directory);
    if Ruler::MOST_TRIPS <= trips {
        return Err(Refusal::TableSize.into());
    }
    let used = ENTRY_WORDS * trips;
    trip_outcome(ruler, &words.originals[0..used], t)?;
    if lacks_room(ruler, Half::Originals, trips, words.originals.len(), t) {
        return Err(Refusal::NoRoom.into());
    }
    if lacks_room(ruler, Half::Replicas, copies, words.replicas.len(), t) {
        return Err(Refusal::NoRoom.into());
    }
    Ok(())
}
