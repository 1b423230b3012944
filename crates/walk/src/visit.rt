// The walk of a plan: level by level from the deepest up, and on each level look by look. What is done with what it meets is a visitor's.
ghost use Rattle.std.specs.Prelude.{List, [], ◌++◌};
ghost use Rattle.lists.specs.Lists.{keep};
ghost use Rattle.trip.specs.declared.Trip.{Trip};
ghost use Rattle.layout.specs.Words.{rows};
ghost use Rattle.plan.specs.Sought.{is_sought};
ghost use Rattle.walk.specs.Seen.{LevelSeen, level_seen, LevelsSeen, levels_seen};

use crate::look::{looks_from, looks_to, part_of};
use plan::looks::look_at;
use plan::range::Plan;
use plan::sought::Sought;
use plan::stretches::{Stretches, stretches_at};
use store::words::Words;

// Takes the matches of one part after another.
pub trait Visitor {
    // Whether it can take some trips; and what it may be once it took them.
    ghost CanTake: { Self → List Trip → Type 0 };

    ghost Took: { Self → List Trip → Self → Type 0 };

    // Takes the matches of a part, all whose entries may be sure to be within the bounds.
    fn take(&mut self, sought: Sought, sure: bool, part: &[u32])
        requires { CanTake self.old (keep (is_sought sought sure) (rows part.now)) }
        ensures { Took self.old (keep (is_sought sought sure) (rows part.now)) self.new };

    // One that stays as it is took none; and one that took some and then others took them all.
    ghost none: { (a : Self) → Took a [] a };

    ghost more: { (a b c : Self) (ts us : List Trip) → CanTake a (ts ++ us) → Took a ts b → Took b us c → Took a (ts ++ us) c };

    // One that can take them all can take the first of them, and then the rest.
    ghost first: { (a : Self) (ts us : List Trip) → CanTake a (ts ++ us) → CanTake a ts };

    ghost rest: { (a b : Self) (ts us : List Trip) → CanTake a (ts ++ us) → Took a ts b → CanTake b us };
}

// Takes the matches of a level.
fn walk_level<V: Visitor>(visitor: &mut V, sought: Sought, words: Words, level: Stretches)
    requires there { LevelSeen words level }
    requires can_take { V.CanTake visitor.old (level_seen sought words level) }
    ensures { V.Took visitor.old (level_seen sought words.entry level) visitor.new }
{
    for k in looks_from(words, level)..looks_to(words, level) {
        let look = look_at(level, k);
        let part = part_of(words, look, sought.bounds);
        visitor.take(sought, look.stretch.sure, part);
    }
}

// Takes all matches.
pub fn walk_levels<V: Visitor>(visitor: &mut V, sought: Sought, words: Words, plan: Plan)
    requires there { LevelsSeen words plan }
    requires can_take { V.CanTake visitor.old (levels_seen sought words plan) }
    ensures { V.Took visitor.old (levels_seen sought words.entry plan) visitor.new }
{
    for level in (0..plan.low.level() + 1).rev() {
        walk_level(visitor, sought, words, stretches_at(plan, level));
    }
}
