// The tests of a table's rows in their order, and the room that its entries need.
ghost use Rattle.std.specs.Prelude.{◌≡◌, true, [], ◌/◌, ◌<◌, ◌≤◌, length};
ghost use Rattle.ruler.specs.Ruler.{most_trips};
ghost use Rattle.ruler.specs.Made.{scale};
ghost use Rattle.layout.specs.Words.{entry_words, trip_at, rows};
ghost use Rattle.layout.specs.Outcomes.{Accepted};
ghost use Rattle.layout.specs.Refusals.{has_id, no_room, row_tests, first_bad_row};
ghost use Rattle.store.specs.Ids.{ids_differ};
ghost use Rattle.build.specs.HalfBuilt.{Tested};
ghost use Rattle.build.specs.RowsJudged.{rows_back, lengths};

use layout::{ENTRY_WORDS, Rejection, row_outcome};
use ruler::Ruler;
use store::counting::entries_of_all;
use store::entry::trip_at;
use store::ids::ids_differ;

// Whether a row before row i has the id.
// It looks back from a row: `find_id` of `edit` looks at all.
fn id_before(table: &[u32], i: usize, id: u32) -> bool
    requires { i ≤ length table.now / entry_words }
    ensures { result ≡ has_id id (rows_back table.now i) }
{
    for j in (0..i).rev() {
        let t = trip_at(table, j);
        if t.id == id {
            return true;
        }
    }
    false
}

// The same of row i's own id: the earlier rows are looked through only where some id stands twice.
fn id_taken(table: &[u32], i: usize, id: u32, differ: bool) -> bool
    requires row_there { i < length table.now / entry_words }
    requires own_id { id ≡ (trip_at table.now i).id }
    requires told_apart { differ ≡ ids_differ (rows table.now) }
    ensures { result ≡ has_id id (rows_back table.now i) }
{
    if differ {
        return false;
    }
    id_before(table, i, id)
}

// The tests of row i.
fn outcome_at(ruler: Ruler, table: &[u32], i: usize, differ: bool) -> Result<(), Rejection>
    requires row_there { (i < length table.now / entry_words) × (length table.now / entry_words ≤ most_trips) }
    requires told_apart { differ ≡ ids_differ (rows table.now) }
    ensures { result ≡ row_tests (scale ruler) (rows_back table.now i) (trip_at table.now i) i Accepted }
{
    let t = trip_at(table, i);
    let taken = id_taken(table, i, t.id, differ);
    row_outcome(ruler, t, taken, i as u32)
}

// The first bad row decides.
fn first_bad_row(ruler: Ruler, table: &[u32], differ: bool) -> Result<(), Rejection>
    requires few_rows { length table.now / entry_words ≤ most_trips }
    requires told_apart { differ ≡ ids_differ (rows table.now) }
    ensures { result ≡ first_bad_row (scale ruler) 0 [] (rows table.now) Accepted }
{
    let n = table.len() / ENTRY_WORDS;
    for i in 0..n {
        outcome_at(ruler, table, i, differ)?;
    }
    Ok(())
}

// The tests of all rows.
pub fn rows_outcome(ruler: Ruler, table: &[u32]) -> Result<(), Rejection>
    requires { length table.now / entry_words ≤ most_trips }
    ensures { result ≡ first_bad_row (scale ruler) 0 [] (rows table.now) Accepted }
{
    let differ = ids_differ(table);
    first_bad_row(ruler, table, differ)
}

// Whether the entries need more words than an arena has: one entry of each row is an original, the others are replicas.
pub fn lacks_room(ruler: Ruler, table: &[u32], originals: usize, replicas: usize) -> bool
    requires { Tested ruler table.now }
    ensures { result ≡ no_room (scale ruler) (rows table.now) (lengths 0 originals replicas) }
{
    let n = table.len() / ENTRY_WORDS;
    let all = entries_of_all(ruler, table);
    (originals < ENTRY_WORDS * n) | (replicas < ENTRY_WORDS * (all - n))
}
