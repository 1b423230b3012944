// Whether words are the index of a table, by conditions on the words themselves: nothing is laid out anew.
#![tactic(auto)]

ghost use Rattle.std.specs.Prelude.{◌≡◌, true, ◌<◌, length};
ghost use Rattle.ruler.specs.Ruler.{scale_of};
ghost use Rattle.ruler.specs.Made.{scale};
ghost use Rattle.layout.specs.Words.{half_length, directory_length};
ghost use Rattle.layout.specs.Refusals.{is_index, check_outcome};
ghost use Rattle.layout.specs.Calls.{index};
ghost use Rattle.verify.specs.Local.{halves_ok, all_slots_ok, trips_ok, locally};
ghost use Rattle.verify.specs.Opening.{open_of, outcome_of};

use counting::counts_to;
use half::{HalfWords, half_ok, slots_ok};
use layout::directory::half_length;
use layout::{Half, Refusal, Rejection};
use origin::all_known;
use ruler::{Numbers, Ruler};
use store::frame::ruler_for;
use store::half::{entries_of, words_of};
use store::ids::ids_differ;
use store::words::Words;

mod counting;
mod half;
mod origin;
mod partition;

// The tests over the words of both halves.
fn halves_ok(originals: HalfWords, replicas: HalfWords) -> bool
    requires { (0 < length originals.dir.now) × (0 < length replicas.dir.now) }
    ensures { result ≡ halves_ok originals.entry.dir.now originals.entry.arena.now replicas.entry.dir.now replicas.entry.arena.now }
{
    half_ok(originals) & half_ok(replicas)
}

// The tests over the slots of both halves.
#[tactic(auto, using(crate::proofs::TestsPassed::some_words))]
fn all_slots_ok(ruler: Ruler, originals: HalfWords, replicas: HalfWords) -> bool
    requires halves_long { (length originals.dir.now ≡ half_length (scale ruler).m) × (length replicas.dir.now ≡ half_length (scale ruler).m) }
    requires halves_passed { halves_ok originals.dir.now originals.arena.now replicas.dir.now replicas.arena.now ≡ true }
    ensures { result ≡ all_slots_ok (scale ruler) originals.entry.dir.now originals.entry.arena.now replicas.entry.dir.now replicas.entry.arena.now }
{
    let few = entries_of(originals.dir) <= Ruler::MOST_TRIPS;
    let firsts = slots_ok(ruler, Half::Originals, originals);
    let copies = slots_ok(ruler, Half::Replicas, replicas);
    few & (firsts & copies)
}

// The tests over all trips.
#[tactic(auto, using(crate::proofs::TestsPassed::some_words))]
fn trips_ok(ruler: Ruler, originals: HalfWords, replicas: HalfWords) -> bool
    requires halves_long { (length originals.dir.now ≡ half_length (scale ruler).m) × (length replicas.dir.now ≡ half_length (scale ruler).m) }
    requires halves_passed { halves_ok originals.dir.now originals.arena.now replicas.dir.now replicas.arena.now ≡ true }
    requires slots_passed { all_slots_ok (scale ruler) originals.dir.now originals.arena.now replicas.dir.now replicas.arena.now ≡ true }
    ensures { result ≡ trips_ok (scale ruler) originals.entry.dir.now originals.entry.arena.now replicas.entry.dir.now replicas.entry.arena.now }
{
    let used = words_of(originals.dir);
    let copied = words_of(replicas.dir);
    let entries = entries_of(originals.dir) + entries_of(replicas.dir);
    let differ = ids_differ(&originals.arena[0..used]);
    let known = all_known(ruler, originals, &replicas.arena[0..copied]);
    let counted = counts_to(ruler, entries, &originals.arena[0..used]);
    differ & (known & counted)
}

// All tests, each group where the one before it passes.
#[tactic(auto, using(crate::proofs::TestsPassed::some_words), unfolding(crate::specs::Local::locally))]
fn locally(ruler: Ruler, originals: HalfWords, replicas: HalfWords) -> bool
    requires { (length originals.dir.now ≡ half_length (scale ruler).m) × (length replicas.dir.now ≡ half_length (scale ruler).m) }
    ensures { result ≡ locally (scale ruler) originals.entry.dir.now originals.entry.arena.now replicas.entry.dir.now replicas.entry.arena.now }
{
    halves_ok(originals, replicas)
        && all_slots_ok(ruler, originals, replicas)
        && trips_ok(ruler, originals, replicas)
}

// Whether directory and arenas are the index of some table that build accepts for this ruler and these lengths.
pub fn is_index(ruler: Ruler, words: Words) -> bool
    requires { length words.directory.now ≡ directory_length (scale ruler).m }
    ensures { result ≡ is_index (scale ruler) (index words.entry.directory.now words.entry.originals.now words.entry.replicas.now) }
{
    let (o, r) = words.directory.split_at(half_length(ruler.bottom()));
    let originals = HalfWords {
        dir: o,
        arena: words.originals,
    };
    let replicas = HalfWords {
        dir: r,
        arena: words.replicas,
    };
    locally(ruler, originals, replicas)
}

// The tests 1, 3, 8 that each call on an index begins with: the ruler that was made for the index, or why there is none.
pub fn open(numbers: Numbers, words: Words) -> Result<Ruler, Refusal>
    ensures { result ≡ open_of numbers (index words.entry.directory.now words.entry.originals.now words.entry.replicas.now) }
{
    let ruler = ruler_for(numbers, words.directory)?;
    if !is_index(ruler, words) {
        return Err(Refusal::NotAnIndex);
    }
    Ok(ruler)
}

// The outcome of the tests alone.
pub fn outcome_of(opened: Result<Ruler, Refusal>) -> Result<(), Rejection>
    ensures { result ≡ outcome_of opened }
{
    opened?;
    Ok(())
}

// The check of an index: those tests and no more.
pub fn check(numbers: Numbers, words: Words) -> Result<(), Rejection>
    ensures { result ≡ check_outcome (scale_of numbers) (index words.entry.directory.now words.entry.originals.now words.entry.replicas.now) }
{
    outcome_of(open(numbers, words))
}
