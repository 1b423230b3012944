// One slot of a half in an edit: the place of a trip in the slot's order, and the entry put in or taken out there. What an addition and a removal
// do alike is written once, for any edit.
ghost use Rattle.std.specs.Prelude.{◌≡◌, List, ℕ};
ghost use Rattle.trip.specs.declared.Trip.{Trip};
ghost use Rattle.layout.specs.declared.Half.{Half};
ghost use Rattle.store.specs.Slots.{inserted_in, removed_in, Holds};
ghost use Rattle.edit.specs.SlotFound.{place_in, Orderly, Vacant, Present};

use layout::{Half, subdivision_of};
use store::part::part_between;
use store::{search, slot};
use trip::Trip;

// Where a trip stands in a slot's order: the slot's part of the arena is searched, between two words of the directory.
fn place_in(half: Half, dir: &[u32], arena: &[u32], slot: usize, t: Trip) -> usize
    requires { (ls : List (List Trip)) × Orderly dir.now arena.now ls half slot }
    ensures { (ls : List (List Trip)) → Orderly dir.now arena.now ls half slot → result ≡ place_in half slot t ls }
{
    search::find_place(
        part_between(dir, arena, slot, slot + 1),
        subdivision_of(half, slot % 2 == 1),
        t,
    )
}

// An edit, as what it does at one slot: what the slot has to be, and the slots when it is done.
pub trait Edit {
    ghost ready: { (dir arena : List ℕ) → List (List Trip) → Half → (slot : ℕ) → Trip → Type 0 };

    ghost changed: { Half → (slot : ℕ) → Trip → List (List Trip) → List (List Trip) };

    fn at_slot(half: Half, dir: &mut [u32], arena: &mut [u32], slot: usize, t: Trip)
        requires { (ls : List (List Trip)) × ready dir.old arena.old ls half slot t }
        ensures { (ls : List (List Trip)) → ready dir.old arena.old ls half slot t → Holds dir.new arena.new (changed half slot t ls) };
}

// The trip goes into a slot, at its place in the slot's order.
pub struct Addition {}

impl Edit for Addition {
    ghost ready = { λ dir arena ls half slot t. Vacant dir arena ls half slot };

    ghost changed = { λ half slot t ls. inserted_in slot (place_in half slot t ls) t ls };

    fn at_slot(half: Half, dir: &mut [u32], arena: &mut [u32], slot: usize, t: Trip) {
        let pos = place_in(half, dir, arena, slot, t);
        slot::insert(dir, arena, slot, pos, t);
    }
}

// The trip's entry is taken out of a slot that has it.
pub struct Removal {}

impl Edit for Removal {
    ghost ready = { λ dir arena ls half slot t. Present dir arena ls half slot t };

    ghost changed = { λ half slot t ls. removed_in slot (place_in half slot t ls) ls };

    fn at_slot(half: Half, dir: &mut [u32], arena: &mut [u32], slot: usize, t: Trip) {
        let pos = place_in(half, dir, arena, slot, t);
        slot::remove(dir, arena, slot, pos);
    }
}
