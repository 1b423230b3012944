// A gap of one entry among the entries of an arena.
ghost use Rattle.std.specs.Prelude.{◌≡◌, ◌+◌, ◌*◌, ◌<◌, ◌≤◌, length};
ghost use Rattle.layout.specs.Words.{entry_words};
ghost use Rattle.store.specs.Passes.{opened, closed};

use layout::ENTRY_WORDS;

// Of an arena with `used` entries, moves those from place `at` on up by one entry.
// Its twin moves the other way and clears: one function for both would take that as cases.
pub fn open_gap(arena: &mut [u32], used: usize, at: usize)
    requires { (at ≤ used) × (entry_words * used + entry_words ≤ length arena.old) }
    ensures { arena.new ≡ opened (entry_words * at) (entry_words * used) arena.old }
{
    let first = ENTRY_WORDS * at;
    arena.copy_within(first..ENTRY_WORDS * used, first + ENTRY_WORDS);
}

// Of an arena with `used` entries, moves those after place `at` down by one entry, and clears the words that the last one leaves.
pub fn close_gap(arena: &mut [u32], used: usize, at: usize)
    requires { (at < used) × (entry_words * used ≤ length arena.old) }
    ensures { arena.new ≡ closed (entry_words * at) (entry_words * used) arena.old }
{
    let first = ENTRY_WORDS * at;
    let end = ENTRY_WORDS * used;
    arena.copy_within(first + ENTRY_WORDS..end, first);
    arena[end - ENTRY_WORDS..end].fill(0);
}
