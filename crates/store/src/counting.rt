// How many partitions hold a trip, or all trips of a part, and how many words a directory has.
ghost use Rattle.std.specs.Prelude.{◌≡◌, ℕ, ◌/◌, ◌<◌, ◌≤◌, length};
ghost use Rattle.lists.specs.Lists.{sum_over};
ghost use Rattle.ruler.specs.Ruler.{deepest, most_trips};
ghost use Rattle.ruler.specs.Made.{scale};
ghost use Rattle.layout.specs.Words.{entry_words, trip_at, rows, directory_length, partitions_holding};
ghost use Rattle.layout.specs.Refusals.{Fits};

use crate::entry;
use layout::ENTRY_WORDS;
use layout::directory::half_length;
use ruler::Ruler;
use trip::Trip;

// As many as hold the trip: they are the largest that make up its cells, side by side.
// That it fits stays a fact: a trip with its ruler would be made and taken apart for each row.
pub fn partitions_holding(ruler: Ruler, t: Trip) -> u32
    requires { Fits (scale ruler) t }
    ensures { result ≡ partitions_holding (scale ruler) t }
{
    let first = ruler.bottom_cell(t.start);
    let last = ruler.bottom_cell(t.end);
    first.pieces_to(last)
}

// As many as the trips of a part have together: the entries of both halves.
pub fn entries_of_all(ruler: Ruler, part: &[u32]) -> usize
    requires few { length part.now / entry_words ≤ most_trips }
    requires fit { (k : ℕ) → k < length part.now / entry_words → Fits (scale ruler) (trip_at part.now k) }
    ensures { result ≡ sum_over (partitions_holding (scale ruler)) (rows part.now) }
{
    let n = part.len() / ENTRY_WORDS;
    let mut sum: usize = 0;
    for k in 0..n {
        sum += partitions_holding(ruler, entry::trip_at(part, k)) as usize;
    }
    sum
}

// As many words as a directory of the levels 0 to m has.
pub fn directory_length(m: u32) -> usize
    requires { m ≤ deepest }
    ensures { result ≡ directory_length m }
{
    2 * half_length(m)
}
