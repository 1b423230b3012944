// One entry more or less in a slot: a directory half and its arena, as parts that the caller lends.
ghost use Rattle.std.specs.Prelude.{List};
ghost use Rattle.trip.specs.declared.Trip.{Trip};
ghost use Rattle.store.specs.Slots.{inserted_in, removed_in, Holds, Room, There};

use crate::{directory, entry, gap};
use trip::Trip;

// Puts a trip in at a place of a slot.
// Its twin is bounded by what is there, and not by the room: one function for both would take that as cases.
pub fn insert(dir: &mut [u32], arena: &mut [u32], slot: usize, pos: usize, t: Trip)
    requires { (ls : List (List Trip)) × Room dir.old arena.old ls slot pos }
    ensures { (ls : List (List Trip)) → Room dir.old arena.old ls slot pos
        → Holds dir.new arena.new (inserted_in slot pos t ls) }
{
    let last = dir.len() - 1;
    let next = slot + 1;
    let used = dir[last] as usize;
    let at = dir[slot] as usize + pos;
    gap::open_gap(arena, used, at);
    entry::put_trip(arena, at, t);
    directory::one_more_from(dir, next);
}

// Takes the entry at a place of a slot out.
pub fn remove(dir: &mut [u32], arena: &mut [u32], slot: usize, pos: usize)
    requires { (ls : List (List Trip)) × There dir.old arena.old ls slot pos }
    ensures { (ls : List (List Trip)) → There dir.old arena.old ls slot pos
        → Holds dir.new arena.new (removed_in slot pos ls) }
{
    let last = dir.len() - 1;
    let next = slot + 1;
    let used = dir[last] as usize;
    let gone = dir[slot] as usize + pos;
    gap::close_gap(arena, used, gone);
    directory::one_less_from(dir, next);
}
