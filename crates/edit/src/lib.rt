// Edits of an index: one trip added, or the trip of an id removed. An edit moves entries where they stand and builds nothing anew; what it
// can refuse is asked before a word is written.
// The slices that are written stay apart: each half of the code lends one of them on for writing, and C lends them so.
#![tactic(auto)]

ghost use Rattle.std.specs.Prelude.{◌≡◌, List};
ghost use Rattle.ruler.specs.Ruler.{scale_of};
ghost use Rattle.ruler.specs.Made.{scale};
ghost use Rattle.trip.specs.declared.Trip.{Trip};
ghost use Rattle.layout.specs.Outcomes.{Accepted};
ghost use Rattle.layout.specs.Words.{lengths_of, layout};
ghost use Rattle.layout.specs.Refusals.{check_outcome};
ghost use Rattle.layout.specs.Calls.{index, after, add_of, remove_of};
ghost use Rattle.edit.specs.SlotSteps.{Editable};

use crate::half::edit_half;
use crate::one_slot::{Addition, Edit, Removal};
use layout::directory::half_length;
use layout::{ENTRY_WORDS, Half, Refusal, Rejection};
use ruler::{Numbers, Ruler};
use store::entry;
use store::half::trips_of;
use store::words::Words;
use trip::Trip;
use verify::open;

mod half;
mod one_slot;
mod tests;

// Writes an edit that is accepted: first the originals with their half of the directory, then the replicas.
fn write<E: Edit>(
    ruler: Ruler,
    directory: &mut [u32],
    originals: &mut [u32],
    replicas: &mut [u32],
    t: Trip,
)
    requires { (ts : List Trip)
        × Editable E.ready E.changed (scale ruler) (index directory.old originals.old replicas.old) t ts }
    ensures { (ts : List Trip) → Editable E.ready E.changed (scale ruler) (index directory.old originals.old replicas.old) t ts
        → index directory.new originals.new replicas.new
        ≡ layout (scale ruler) ts (lengths_of (index directory.old originals.old replicas.old)) }
{
    let (o, r) = directory.split_at_mut(half_length(ruler.bottom()));
    edit_half::<E>(ruler, Half::Originals, o, originals, t);
    edit_half::<E>(ruler, Half::Replicas, r, replicas, t);
}

// An addition to words that are an index.
fn add_checked(
    ruler: Ruler,
    directory: &mut [u32],
    originals: &mut [u32],
    replicas: &mut [u32],
    t: Trip,
) -> Result<(), Rejection>
    requires { check_outcome (scale ruler) (index directory.old originals.old replicas.old) ≡ Accepted }
    ensures { after result (index directory.new originals.new replicas.new)
        ≡ add_of (scale ruler) (index directory.old originals.old replicas.old) t }
{
    let words = Words {
        directory,
        originals,
        replicas,
    };
    let outcome = tests::add_outcome(ruler, words, t);
    outcome?;
    write::<Addition>(ruler, directory, originals, replicas, t);
    Ok(())
}

// A removal from words that are an index: the trip is looked for among the originals, of which each trip has one.
fn remove_checked(
    ruler: Ruler,
    directory: &mut [u32],
    originals: &mut [u32],
    replicas: &mut [u32],
    id: u32,
) -> Result<(), Rejection>
    requires { check_outcome (scale ruler) (index directory.old originals.old replicas.old) ≡ Accepted }
    ensures { after result (index directory.new originals.new replicas.new)
        ≡ remove_of (scale ruler) (index directory.old originals.old replicas.old) id }
{
    let trips = trips_of(ruler.bottom(), directory);
    let used = ENTRY_WORDS * trips;
    let place = tests::find_id(&originals[0..used], id).ok_or(Refusal::NoSuchId)?;
    let t = entry::trip_at(originals, place);
    write::<Removal>(ruler, directory, originals, replicas, t);
    Ok(())
}

// Adds a trip.
pub fn add(
    numbers: Numbers,
    directory: &mut [u32],
    originals: &mut [u32],
    replicas: &mut [u32],
    t: Trip,
) -> Result<(), Rejection>
    ensures { after result (index directory.new originals.new replicas.new)
        ≡ add_of (scale_of numbers) (index directory.old originals.old replicas.old) t }
{
    let words = Words {
        directory,
        originals,
        replicas,
    };
    let ruler = open(numbers, words)?;
    add_checked(ruler, directory, originals, replicas, t)
}

// Removes the trip of an id.
pub fn remove(
    numbers: Numbers,
    directory: &mut [u32],
    originals: &mut [u32],
    replicas: &mut [u32],
    id: u32,
) -> Result<(), Rejection>
    ensures { after result (index directory.new originals.new replicas.new)
        ≡ remove_of (scale_of numbers) (index directory.old originals.old replicas.old) id }
{
    let words = Words {
        directory,
        originals,
        replicas,
    };
    let ruler = open(numbers, words)?;
    remove_checked(ruler, directory, originals, replicas, id)
}
