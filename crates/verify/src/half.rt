// One half of the directory with its arena: its counts, its tail, and the entries of its slots.
ghost use Rattle.std.specs.Prelude.{◌≡◌, ◌↔◌, IsTrue, true, ℕ, ◌+◌, ◌/◌, ◌^◌, ◌<◌, ◌≤◌, length, get_or, drop};
ghost use Rattle.ruler.specs.Made.{scale};
ghost use Rattle.layout.specs.Words.{entry_words, rows, order, partition_number, half_length};
ghost use Rattle.store.specs.Parts.{PartThere};
ghost use Rattle.verify.specs.Passing.{in_row, rising, blank};
ghost use Rattle.verify.specs.Frames.{FrameAt, stands_in};
ghost use Rattle.verify.specs.Local.{half_ok, slot_at, slot_ok, level_ok, slots_ok};

use crate::partition::{Frame, frame_of, stands};
use layout::{Half, Subdivision, subdivision_of};
use ruler::{Cell, Ruler, power};
use store::entry::trip_at;
use store::half::words_of;
use store::ordering::{key_at, key_place};
use store::part::part_there;

// The words of one half: its part of the directory, and its arena.
#[derive(Clone, Copy)]
pub struct HalfWords<'a> {
    pub dir: &'a [u32],
    pub arena: &'a [u32],
}

// Whether no word is below the one before it. Windows take a third of the time of `is_sorted`.
fn rises(dir: &[u32]) -> bool
    ensures { IsTrue result ↔ ((k : ℕ) → k + 1 < length dir.now → get_or dir.now k 0 ≤ get_or dir.now (k + 1) 0) }
{
    dir.windows(2).all(|pair| pair[0] <= pair[1])
}

// Whether every word is zero. All of them are looked at together: a test of each would be a jump for each.
fn is_blank(words: &[u32]) -> bool
    ensures { result ≡ blank words.now }
{
    let mut any: u32 = 0;
    for word in words {
        any |= *word;
    }
    any == 0
}

// Whether the counts start at 0, never fall and fit the arena, and the words after the last entry are 0.
pub fn half_ok(words: HalfWords) -> bool
    requires { 0 < length words.dir.now }
    ensures { result ≡ half_ok words.entry.dir.now words.entry.arena.now }
{
    let used = words_of(words.dir);
    if words.arena.len() < used {
        return false;
    }
    (words.dir[0] == 0) & (rises(words.dir) & is_blank(&words.arena[used..]))
}

// Whether each of the n entries of a part may stand in a slot of this frame, and comes after the one before it in the order of its subdivision,
// which is that of one number.
// One pass makes both tests: `climbs` of `store` after it would read the entries twice. Its caller knows n.
#[tactic(auto, using(store::proofs::SlotKeys::place_in_entry))]
fn in_row(ruler: Ruler, d: Subdivision, frame: Frame, part: &[u32], n: usize) -> bool
    requires frame_at { FrameAt (scale ruler).m frame }
    requires counted { (n ≡ length part.now / entry_words) × (0 < n) }
    ensures { result ≡ in_row (stands_in (scale ruler) frame) (order d) (rows part.now) }
{
    if !stands(ruler, frame, trip_at(part, 0)) {
        return false;
    }
    let by = key_place(d);
    let mut last = key_at(part, by, 0);
    for k in 1..n {
        if !stands(ruler, frame, trip_at(part, k)) {
            return false;
        }
        let key = key_at(part, by, k);
        if key <= last {
            return false;
        }
        last = key;
    }
    true
}

// Whether slot k of a half, one of this partition's, is as it should be. Most slots have no entry.
fn slot_at(ruler: Ruler, half: Half, partition: Cell, words: HalfWords, k: usize) -> bool
    requires partition_bound { (partition.0 ≤ (scale ruler).m) × (partition.1 < 2 ^ partition.0)
        × (k / 2 ≡ partition_number partition.0 partition.1) }
    requires part_there { PartThere words.dir.now words.arena.now k (k + 1) }
    ensures { result ≡ slot_ok (scale ruler) half k (slot_at words.entry.dir.now words.entry.arena.now k) }
{
    let from = words.dir[k];
    let to = words.dir[k + 1];
    if from == to {
        return true;
    }
    let aft = k % 2 == 1;
    let frame = frame_of(ruler.bottom(), half, aft, partition);
    let d = subdivision_of(half, aft);
    let n = (to - from) as usize;
    in_row(
        ruler,
        d,
        frame,
        part_there(words.dir, words.arena, k, k + 1),
        n,
    )
}

// Whether every slot of a level of a half is. A level whose outer words are equal has no entry.
fn level_ok(ruler: Ruler, half: Half, level: u32, words: HalfWords) -> bool
    requires level_in { level ≤ (scale ruler).m }
    requires dir_len { length words.dir.now ≡ half_length (scale ruler).m }
    requires half_passed { half_ok words.dir.now words.arena.now ≡ true }
    ensures { result ≡ level_ok (scale ruler) half level words.entry.dir.now words.entry.arena.now }
{
    let across = power(level) as usize;
    let first = 2 * (across - 1);
    let n = 2 * across;
    if words.dir[first] == words.dir[first + n] {
        return true;
    }
    for j in 0..n {
        let partition = Cell::at(level, (j / 2) as u32);
        if !slot_at(ruler, half, partition, words, first + j) {
            return false;
        }
    }
    true
}

// Whether every slot of a half is.
pub fn slots_ok(ruler: Ruler, half: Half, words: HalfWords) -> bool
    requires dir_len { length words.dir.now ≡ half_length (scale ruler).m }
    requires half_passed { half_ok words.dir.now words.arena.now ≡ true }
    ensures { result ≡ slots_ok (scale ruler) half words.entry.dir.now words.entry.arena.now }
{
    let m = ruler.bottom();
    for level in 0..=m {
        if !level_ok(ruler, half, level, words) {
            return false;
        }
    }
    true
}
