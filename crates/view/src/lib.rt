// Readings of an index: the census of its levels, and the run of one subdivision. Each opens the index once; then the directory alone says
// the rest. A run is named by three numbers, as document 01 names it. The number of a call and what it shows come from two entries on the same inputs, or from `run_place` and
// `rows_opened` together: both are promised (docs/PUBLIC.md).
#![tactic(auto)]

mod counts;
mod slots;

ghost use Rattle.std.specs.Prelude.{◌≡◌, true, ◌+◌, ◌≤◌, ◌<◌, length, get_or};
ghost use Rattle.ruler.specs.Ruler.{scale_of};
ghost use Rattle.ruler.specs.Made.{scale};
ghost use Rattle.layout.specs.Refusals.{no_such_slot, check_outcome, run_outcome};
ghost use Rattle.layout.specs.Calls.{index, census_of, run_of, run_from_of};
ghost use Rattle.view.specs.Views.{Readable, rows_opened, slot_place, place_of};

use counts::level_rows;
use layout::{ENTRY_WORDS, Refusal, Rejection};
use ruler::{Numbers, Ruler, power};
use slots::{half_of, numbered, slot_at};
use store::part::arena_of;
use store::words::Words;
use verify::{check, open};

// The rows of a census, one for each level that a ruler can have, and the counts of a row.
pub const LEVELS: usize = 11;

pub const SUBDIVISIONS: usize = 4;

const LAST_SUBDIVISION: u32 = 3;

// Whether the census is accepted.
pub fn census_outcome(numbers: Numbers, words: Words) -> Result<(), Rejection>
    ensures { result ≡ check_outcome (scale_of numbers) (index words.entry.directory.now words.entry.originals.now words.entry.replicas.now) }
{
    check(numbers, words)
}

// The rows of words that were opened: a row for each level, of the entries in O_in, O_aft, R_in and R_aft; all zeros where they were refused. Not
// inlined: the stack that they need is not taken while the index is checked.
#[inline(never)]
pub fn rows_opened(
    opened: Result<Ruler, Refusal>,
    directory: &[u32],
) -> [[u32; SUBDIVISIONS]; LEVELS]
    requires { Readable opened directory.now }
    ensures { result ≡ rows_opened opened directory.now }
{
    match opened {
        Ok(ruler) => level_rows(directory, ruler.bottom()),
        Err(_) => [[0; SUBDIVISIONS]; LEVELS],
    }
}

// The census.
pub fn census(numbers: Numbers, words: Words) -> [[u32; SUBDIVISIONS]; LEVELS]
    ensures { result ≡ census_of (scale_of numbers) (index words.entry.directory.now words.entry.originals.now words.entry.replicas.now) }
{
    let opened = open(numbers, words);
    rows_opened(opened, words.directory)
}

// Where a run stands: the word of its arena at which it begins, and its words.
#[derive(Clone, Copy)]
pub struct Place {
    pub from: usize,
    pub length: usize,
}

// The place of a refused run, which is an empty part.
pub const NOWHERE: Place = Place { from: 0, length: 0 };

// The place of a slot's entries, between two words of the directory.
fn slot_place(directory: &[u32], at: usize) -> Place
    requires { (at + 1 < length directory.now) × (get_or directory.now at 0 ≤ get_or directory.now (at + 1) 0) }
    ensures { result ≡ slot_place directory.now at }
{
    let from = ENTRY_WORDS * directory[at] as usize;
    let to = ENTRY_WORDS * directory[at + 1] as usize;
    Place {
        from,
        length: to - from,
    }
}

// Whether there is no such slot. The level is tested before a number is made of it.
#[tactic(auto, unfolding(layout::specs::Refusals::no_such_slot, layout::specs::Stored::partitions_at))]
fn no_such_slot(ruler: Ruler, level: u32, partition: u32, subdivision: u32) -> bool
    ensures { result ≡ no_such_slot (scale ruler) level partition subdivision }
{
    ruler.bottom() < level || power(level) <= partition || LAST_SUBDIVISION < subdivision
}

// The place of a run: the index first, then the slot.
pub fn run_place(
    numbers: Numbers,
    words: Words,
    level: u32,
    partition: u32,
    subdivision: u32,
) -> Result<Place, Rejection>
    ensures { result ≡ place_of (scale_of numbers) (index words.entry.directory.now words.entry.originals.now words.entry.replicas.now)
        level partition subdivision }
{
    let ruler = open(numbers, words)?;
    if no_such_slot(ruler, level, partition, subdivision) {
        return Err(Refusal::NoSuchSlot.into());
    }
    let d = numbered(subdivision);
    Ok(slot_place(
        words.directory,
        slot_at(ruler.bottom(), level, partition, d),
    ))
}

// Whether the run is accepted.
pub fn run_outcome(
    numbers: Numbers,
    words: Words,
    level: u32,
    partition: u32,
    subdivision: u32,
) -> Result<(), Rejection>
    ensures { result ≡ run_outcome (scale_of numbers) (index words.entry.directory.now words.entry.originals.now words.entry.replicas.now)
        level partition subdivision }
{
    run_place(numbers, words, level, partition, subdivision)?;
    Ok(())
}

// The run: a part of one of the arenas themselves, nothing copied; an empty part where it is refused. The slices stand apart, as the part may
// outlive the directory.
pub fn run<'a>(
    numbers: Numbers,
    directory: &[u32],
    originals: &'a [u32],
    replicas: &'a [u32],
    level: u32,
    partition: u32,
    subdivision: u32,
) -> &'a [u32]
    ensures { result.now ≡ run_of (scale_of numbers) (index directory.now originals.now replicas.now)
        level partition subdivision }
{
    let words = Words {
        directory,
        originals,
        replicas,
    };
    let place = run_place(numbers, words, level, partition, subdivision).unwrap_or(NOWHERE);
    let arena = arena_of(half_of(numbered(subdivision)), originals, replicas);
    &arena[place.from..place.from + place.length]
}

// The word of the arena at which the run begins; 0 where it is refused.
pub fn run_from(
    numbers: Numbers,
    words: Words,
    level: u32,
    partition: u32,
    subdivision: u32,
) -> usize
    ensures { result ≡ run_from_of (scale_of numbers) (index words.entry.directory.now words.entry.originals.now words.entry.replicas.now)
        level partition subdivision }
{
    let place = run_place(numbers, words, level, partition, subdivision).unwrap_or(NOWHERE);
    place.from
}
