// What a look sees: a part of one of the two arenas, without the entries that are known not to match.
ghost use Rattle.std.specs.Prelude.{◌≡◌, ◌<◌, not, eqb, length, get_or};
ghost use Rattle.walk.specs.Levels.{looks_from, looks_to};
ghost use Rattle.walk.specs.Seen.{LookSeen, part_seen};

use crate::cut::cut;
use plan::bounds::Bounds;
use plan::looks::{LOOKS, Look, ORIGINAL_LOOKS};
use plan::stretches::Stretches;
use store::part::{arena_of, part_there};
use store::words::Words;

// Whether there are entries from one word of the directory up to another.
fn has_entries(words: Words, from: usize, to: usize) -> bool
    requires { (from < length words.directory.now) × (to < length words.directory.now) }
    ensures { result ≡ not (eqb (get_or words.entry.directory.now from 0) (get_or words.entry.directory.now to 0)) }
{
    words.directory[from] != words.directory[to]
}

// The looks of a level from one on, up to another. Where a half has no entries from the first look's word to the last one's, none of its
// looks has, and they are passed over by this one comparison. A look is made where it is looked at: lists of them need more steps and stack.
#[tactic(auto, unfolding(crate::specs::Levels::looks_from))]
pub fn looks_from(words: Words, level: Stretches) -> usize
    requires { (level.first.from < length words.directory.now) × (level.last.to < length words.directory.now) }
    ensures { result ≡ looks_from level words.entry.directory.now }
{
    if has_entries(words, level.first.from, level.last.to) {
        return 0;
    }
    ORIGINAL_LOOKS
}

#[tactic(auto, unfolding(crate::specs::Levels::looks_to))]
pub fn looks_to(words: Words, level: Stretches) -> usize
    requires { (level.replicas.from < length words.directory.now) × (level.replicas.to < length words.directory.now) }
    ensures { result ≡ looks_to level words.entry.directory.now }
{
    if has_entries(words, level.replicas.from, level.replicas.to) {
        return LOOKS;
    }
    ORIGINAL_LOOKS
}

// The entries of a look. Where not all are known to match, and they are in an order of times, they are cut to those whose time can.
#[tactic(auto, unfolding(crate::specs::Levels::part_of, crate::specs::Levels::look_words))]
pub fn part_of<'a>(words: Words<'a>, look: Look, bounds: Bounds) -> &'a [u32]
    requires { LookSeen words look }
    ensures { result.now ≡ part_seen bounds words.entry look }
{
    let stretch = look.stretch;
    let arena = arena_of(look.half, words.originals, words.replicas);
    let part = part_there(words.directory, arena, stretch.from, stretch.to);
    if stretch.sure {
        return part;
    }
    cut(look.order, bounds, part)
}
