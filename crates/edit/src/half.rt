// One half of an index in an edit: what the edit does at a slot is done at each slot of the trip there.
ghost use Rattle.std.specs.Prelude.{◌≡◌, List};
ghost use Rattle.ruler.specs.Ruler.{Scale};
ghost use Rattle.ruler.specs.Made.{scale};
ghost use Rattle.layout.specs.Words.{Index};
ghost use Rattle.store.specs.TripWalk.{slots_of_trip};
ghost use Rattle.trip.specs.declared.Trip.{Trip};
ghost use Rattle.edit.specs.HalfEdited.{HalfOf};
ghost use Rattle.edit.specs.SlotSteps.{Steps};

use crate::one_slot::Edit;
use layout::Half;
use ruler::Ruler;
use store::places;
use trip::Trip;

// Edits each of the trip's slots.
fn edit_slots<E: Edit>(half: Half, dir: &mut [u32], arena: &mut [u32], spots: &[u32], t: Trip)
    requires { (s : Scale) × (x : Index) × (ts : List Trip) × Steps E.ready E.changed s x t ts half dir.old arena.old
        × (spots.now ≡ slots_of_trip s half t) }
    ensures { (s : Scale) (x : Index) (ts : List Trip) → Steps E.ready E.changed s x t ts half dir.old arena.old
        → spots.now ≡ slots_of_trip s half t
        → HalfOf s half ts x dir.new arena.new }
{
    for spot in spots {
        E::at_slot(half, dir, arena, *spot as usize, t);
    }
}

// Edits a half.
pub fn edit_half<E: Edit>(ruler: Ruler, half: Half, dir: &mut [u32], arena: &mut [u32], t: Trip)
    requires { (x : Index) × (ts : List Trip) × Steps E.ready E.changed (scale ruler) x t ts half dir.old arena.old }
    ensures { (x : Index) (ts : List Trip) → Steps E.ready E.changed (scale ruler) x t ts half dir.old arena.old
        → HalfOf (scale ruler) half ts x dir.new arena.new }
{
    let mut spots = [0u32; places::MOST_SLOTS];
    let n = places::trip_slots(ruler, half, t, &mut spots);
    edit_slots::<E>(half, dir, arena, &spots[0..n], t);
}
