// The arena of a half, and the entries between two words of a directory as one part of it.
ghost use Rattle.std.specs.Prelude.{◌≡◌, ◌<◌, length};
ghost use Rattle.store.specs.Parts.{arena_of, part_inside, part_in, part_words, PartThere};

use layout::{ENTRY_WORDS, Half};

// The arena of a half.
pub fn arena_of<'a>(half: Half, originals: &'a [u32], replicas: &'a [u32]) -> &'a [u32]
    ensures { result.now ≡ arena_of half originals.now replicas.now }
{
    match half {
        Half::Originals => originals,
        Half::Replicas => replicas,
    }
}

// The part from one word of the directory up to another, of an index that was checked.
pub fn part_there<'a>(dir: &[u32], arena: &'a [u32], from: usize, to: usize) -> &'a [u32]
    requires { PartThere dir.now arena.now from to }
    ensures { result.now ≡ part_words dir.now arena.now from to }
{
    let first = ENTRY_WORDS * dir[from] as usize;
    let end = ENTRY_WORDS * dir[to] as usize;
    &arena[first..end]
}

// Whether two words of a directory that nobody checked name a part of the arena: they do not fall, and it ends inside.
pub fn part_inside(dir: &[u32], arena: &[u32], from: usize, to: usize) -> bool
    requires { (from < length dir.now) × (to < length dir.now) }
    ensures { result ≡ part_inside dir.now arena.now from to }
{
    let first = ENTRY_WORDS * dir[from] as usize;
    let end = ENTRY_WORDS * dir[to] as usize;
    (first <= end) & (end <= arena.len())
}

// The part of such words, and none where they name none.
pub fn part_between<'a>(dir: &[u32], arena: &'a [u32], from: usize, to: usize) -> &'a [u32]
    requires { (from < length dir.now) × (to < length dir.now) }
    ensures { result.now ≡ part_in dir.now arena.now from to }
{
    if part_inside(dir, arena, from, to) {
        return part_there(dir, arena, from, to);
    }
    &arena[0..0]
}
