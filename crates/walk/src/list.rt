// The ids of the entries that a plan looks at and that match.
ghost use Rattle.std.specs.Prelude.{◌≡◌, Bool, true, cond, refl, ◌+◌, ◌<◌, ◌≤◌, length, set};
ghost use Rattle.std.proofs.Common.{rules, ◌∙◌};
ghost use Rattle.std.proofs.lemmas.Grind.{common_steps};
ghost use Rattle.lists.specs.Lists.{keep};
ghost use Rattle.layout.specs.Words.{rows};
ghost use Rattle.trip.specs.declared.Trip.{Trip};
ghost use Rattle.plan.specs.Sought.{is_sought};
ghost use Rattle.walk.specs.Part.{Listed, ListedFrom};
ghost use Rattle.walk.specs.Seen.{LevelsSeen, levels_seen};
ghost use Rattle.walk.specs.Listings.{listed_from-none, listed_from-more, listed_from-rest};

use crate::visit::{Visitor, walk_levels};
use layout::ENTRY_WORDS;
use plan::range::Plan;
use plan::sought::Sought;
use store::entry::trip_at;
use store::words::Words;
use trip::Trip;

// Writes an id at a place of a list where the test passes, and says where the next one goes.
// The test is handed in, so that the loop over it has no jump.
fn put_if(test: bool, id: u32, out: &mut [u32], at: usize) -> usize
    requires { test ≡ true → at < length out.old }
    ensures { (result ≡ cond test (at + 1) at) × (out.new ≡ cond test (set out.old at id) out.old) }
{
    if test {
        out[at] = id;
        return at + 1;
    }
    at
}

// Writes the ids of a part's entries that pass a test to the front of a list, and says how many they are.
fn list_where<F: Fn(Trip) -> bool>(test: F, part: &[u32], out: &mut [u32]) -> usize
    ghost passes: { Trip → Bool }
    requires callable { F.IsAlwaysCallable test }
    requires tests { (t : Trip) → (b : Bool) → F.post test t b → b ≡ passes t }
    requires room { length (keep passes (rows part.now)) ≤ length out.old }
    ensures { Listed (keep passes (rows part.now)) out.old out.new result }
{
    let n = part.len() / ENTRY_WORDS;
    let mut count: usize = 0;
    for i in 0..n {
        let trip = trip_at(part, i);
        count = put_if(test(trip), trip.id, out, count);
    }
    count
}

// The ids of a part's matches, where every entry may be sure to be within the bounds: then those that run are listed, and nothing else is tested. Two calls,
// so that each loop is compiled for its own test.
fn list_part(sure: bool, sought: Sought, part: &[u32], out: &mut [u32]) -> usize
    requires { length (keep (is_sought sought sure) (rows part.now)) ≤ length out.old }
    ensures { Listed (keep (is_sought sought sure) (rows part.now)) out.old out.new result }
{
    if sure {
        return list_where(|t| sought.has(true, t), part, out);
    }
    list_where(|t| sought.has(false, t), part, out)
}

// A list, and how many of its first words have ids. More are written into the rest.
#[derive(Drop)]
struct Listing<'a> {
    list: &'a mut [u32],
    count: usize,
}

impl<'a> Visitor for Listing<'a> {
    ghost CanTake = { λ a ts. a.count + length ts ≤ length a.list.now };

    ghost Took = { λ a ts b. (b.list.ghost_name ≡ a.list.ghost_name) × ListedFrom a.count ts a.list.now b.list.now b.count };

    ghost none = { λ a. (refl, listed_from-none _ _) };

    ghost more = { λ a b c ts us can one two. (two.0 ∙ one.0, listed_from-more ts us can one.1 two.1) };

    ghost first = { Prim.search (rules, common_steps) };

    ghost rest = { λ a b ts us can one. listed_from-rest ts us can one.1 };

    fn take(&mut self, sought: Sought, sure: bool, part: &[u32]) {
        self.count += list_part(sure, sought, part, &mut self.list[self.count..]);
    }
}

// Writes the ids of all matches to the front of the answer list, from the deepest level up: each level into the rest that is not used yet.
pub fn list_levels(sought: Sought, plan: Plan, words: Words, answers: &mut [u32]) -> usize
    requires levels_there { LevelsSeen words plan }
    requires room { length (levels_seen sought words plan) ≤ length answers.old }
    ensures { Listed (levels_seen sought words.entry plan) answers.old answers.new result }
{
    let mut listing = Listing {
        list: answers,
        count: 0,
    };
    walk_levels(&mut listing, sought, words, plan);
    listing.count
}
