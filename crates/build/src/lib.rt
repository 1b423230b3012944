// The index of a table. The slices that are written stay apart: each half of the code lends one of them on for writing, and C lends them so.
#![tactic(auto)]

mod halves;
mod replicas;
mod rows;

ghost use Rattle.std.specs.Prelude.{◌≡◌};
ghost use Rattle.ruler.specs.Ruler.{scale_of};
ghost use Rattle.ruler.specs.Made.{scale};
ghost use Rattle.layout.specs.Refusals.{build_outcome};
ghost use Rattle.layout.specs.Calls.{index, after, build_of};
ghost use Rattle.build.specs.RowsJudged.{lengths};

use crate::halves::fill;
use crate::replicas::fill_replicas;
use crate::rows::{lacks_room, rows_outcome};
use layout::directory::half_length;
use layout::{ENTRY_WORDS, Half, Refusal, Rejection};
use ruler::{Numbers, Ruler};
use store::counting::directory_length;

// What a build says, for a directory and arenas of these lengths: 2, 3, the first bad row, 7. Nothing is written.
fn judged(
    ruler: Ruler,
    table: &[u32],
    directory: usize,
    originals: usize,
    replicas: usize,
) -> Result<(), Rejection>
    ensures { result ≡ build_outcome (scale ruler) table.now (lengths directory originals replicas) }
{
    let words = table.len();
    if (words % ENTRY_WORDS != 0) | (Ruler::MOST_TRIPS < words / ENTRY_WORDS) {
        return Err(Refusal::TableSize.into());
    }
    if directory != directory_length(ruler.bottom()) {
        return Err(Refusal::DirectoryLength.into());
    }
    rows_outcome(ruler, table)?;
    if lacks_room(ruler, table, originals, replicas) {
        return Err(Refusal::NoRoom.into());
    }
    Ok(())
}

// Builds the index of a table on a ruler: both halves of the directory, each with its arena. The replicas come first, as the originals'
// arena is then free for a copy of the rows: it has room for them.
fn build_on(
    ruler: Ruler,
    table: &[u32],
    directory: &mut [u32],
    originals: &mut [u32],
    replicas: &mut [u32],
) -> Result<(), Rejection>
    ensures { after result (index directory.new originals.new replicas.new)
        ≡ build_of (scale ruler) table.now (index directory.old originals.old replicas.old) }
{
    judged(
        ruler,
        table,
        directory.len(),
        originals.len(),
        replicas.len(),
    )?;
    let (o, r) = directory.split_at_mut(half_length(ruler.bottom()));
    fill_replicas(r, replicas, originals, ruler, table);
    fill(o, originals, ruler, table, Half::Originals);
    Ok(())
}

// Builds the index of a table of rows into a directory and two arenas, over whatever their words were; where it is refused, every word
// stays as it was.
pub fn build(
    numbers: Numbers,
    table: &[u32],
    directory: &mut [u32],
    originals: &mut [u32],
    replicas: &mut [u32],
) -> Result<(), Rejection>
    ensures { after result (index directory.new originals.new replicas.new)
        ≡ build_of (scale_of numbers) table.now (index directory.old originals.old replicas.old) }
{
    let ruler = Ruler::new(numbers).ok_or(Refusal::RulerOutOfBounds)?;
    build_on(ruler, table, directory, originals, replicas)
}
