// No id twice, in 2.5 KiB: the ids are gathered class by class into a room for 512 and told apart there by marks. A class that has more is put
// in order a room full at a time, so that ids chosen for it cost little more. The room is lent to each class in turn.
ghost use Rattle.std.specs.Prelude.{◌≡◌, true, cond, ◌++◌, ◌+◌, ◌-◌, ◌*◌, ◌/◌, ◌<◌, ◌≤◌, leb, length, take};
ghost use Rattle.ruler.specs.Ruler.{most_trips};
ghost use Rattle.lists.specs.Lists.{ascending};
ghost use Rattle.layout.specs.Words.{entry_words, rows};
ghost use Rattle.store.specs.Entries.{word_end};
ghost use Rattle.store.specs.Ids.{climbs, every_step, ids_differ, among, apart, differ, room_length, spread, class_of, of_class, Gathers};
ghost use Rattle.store.specs.Marks.{word_bits, mark_words, mark_of, marked, with_mark};

use crate::climbing::climbs;
use crate::entry::WORD_END;
use layout::ENTRY_WORDS;
use lists::sort_ids;

// How many ids are told apart at once.
const ROOM: usize = 512;

// How many ids a class has where they fall evenly: so far below the room that chance seldom fills it.
const EVEN: usize = 456;

// What an id is multiplied by: the product's low word is spread over all words, also of ids in even steps.
const MIX: u64 = 2654435769;

// How many bits a word has.
const WORD_BITS: usize = 32;

// How many words of marks there are, a mark for each bit.
const MARK_WORDS: usize = 128;

// How many words have the same mark: all words over all marks.
const MARK_SHARE: u64 = 1048576;

// Whether the words that stand a step apart, from the first on, each are above the one before.
fn climb(words: &[u32], step: usize) -> bool
    requires { 0 < step }
    ensures { result ≡ climbs (every_step step words.now) }
{
    climbs(words.len() / step, |k| words[step * k] as u64)
}

// Sets a mark, and says whether it was set before.
fn set_mark(marks: &mut [u32; MARK_WORDS], mark: usize) -> bool
    requires { mark < mark_words * word_bits }
    ensures { (result ≡ marked marks.old mark) × (marks.new ≡ with_mark marks.old mark) }
{
    let at = mark / WORD_BITS;
    let bit = mark % WORD_BITS;
    let word = marks[at];
    marks[at] = word | 1 << bit;
    (word >> bit) % 2 == 1
}

// Whether an id is one of the words. Each is looked at, so that no jump depends on them.
fn has(words: &[u32], id: u32) -> bool
    ensures { result ≡ among id words.now }
{
    let mut found = false;
    for word in words {
        found |= *word == id;
    }
    found
}

// Puts a room in order, and says whether its words differ.
fn put_in_order(room: &mut [u32]) -> bool
    ensures { (result ≡ differ room.old) × (room.new ≡ ascending room.old) }
{
    sort_ids(room);
    climb(room, 1)
}

// The half to pass over, if what stands there is not above the id; else none of it.
fn passed(word: u32, id: u32, half: usize) -> usize
    ensures { result ≡ cond (leb word id) half 0 }
{
    if word <= id { half } else { 0 }
}

// Whether a full room, in order, has an id: by halving, the same steps for each id, so that no jump depends on it. The library's search jumps at
// each step: with it, ids chosen to fill one class took 2.6 times as long.
fn holds(room: &[u32], id: u32) -> bool
    requires { (length room.now ≡ room_length) × (climbs room.now ≡ true) }
    ensures { result ≡ among id room.now }
{
    let mut low: usize = 0;
    let mut width = ROOM;
    // It halves.
    while 1 < width {
        let half = width / 2;
        low += passed(room[low + half], id, half);
        width -= half;
    }
    room[low] == id
}

// How many ids of a class were gathered, and the row after the last that was looked at.
#[derive(Clone, Copy)]
struct Gathered {
    found: usize,
    next: usize,
}

// A class of ids, and how many classes there are: no more than there are words, so that the product of a word and their number fits two words.
#[derive(Clone, Copy)]
struct Class {
    classes: u64,
    class: u64,
    ghost few: { classes ≤ word_end },
}

impl Class {
    // An id spread over all words, times so many classes: the high word is its class, and the low word stands for it in its class.
    fn spread_of(self, id: u32) -> u64
        ensures { result ≡ spread self.classes id }
    {
        id as u64 * MIX % WORD_END * self.classes
    }

    // The class of an id, one of so many.
    fn class_of(self, id: u32) -> u64
        ensures { result ≡ class_of self.classes id }
    {
        self.spread_of(id) / WORD_END
    }

    // Gathers the ids of a class that some rows have in a room, after those it has, and says how many it has then. Each id is written, and the
    // next over it where it is of another class: so no jump depends on the class, and none on the room, which has words for all the rows.
    fn gather_rows(
        self,
        part: &[u32],
        from: usize,
        to: usize,
        room: &mut [u32],
        had: usize,
    ) -> usize
        requires { (from ≤ to) × (to ≤ length part.now / entry_words) × (had + (to - from) ≤ length room.old) }
        ensures { (result ≤ had + (to - from))
            × (take had room.old ++ of_class self.classes self.class (rows part.now) from
            ≡ take result room.new ++ of_class self.classes self.class (rows part.now) to) }
    {
        let mut found = had;
        for k in from..to {
            let id = part[ENTRY_WORDS * k];
            room[found] = id;
            if self.class_of(id) == self.class {
                found += 1;
            }
        }
        found
    }

    // Gathers the ids of a class, from one row on, in the first words of a room, until the rows end or it is full: a stretch of rows at a time that
    // cannot overfill it.
    fn gather(self, part: &[u32], from: usize, room: &mut [u32]) -> Gathered
        requires { 0 < length room.old }
        ensures { Gathers self.classes self.class (rows part.now) from room.new result.found result.next }
    {
        let n = part.len() / ENTRY_WORDS;
        let mut found: usize = 0;
        let mut k = from;
        // A turn takes a stretch of rows, and not one row.
        while k < n {
            if room.len() <= found {
                return Gathered { found, next: k };
            }
            let to = k + (n - k).min(room.len() - found);
            found = self.gather_rows(part, k, to, room, found);
            k = to;
        }
        Gathered { found, next: k }
    }

    // The mark of an id: of those of one class few have the same.
    fn mark_of(self, id: u32) -> usize
        ensures { result ≡ mark_of self.classes id }
    {
        (self.spread_of(id) % WORD_END / MARK_SHARE) as usize
    }

    // Whether words differ. Each sets its mark: one whose mark was set is looked for among those before it, any other cannot stand there.
    fn words_differ(self, words: &[u32]) -> bool
        ensures { result ≡ differ words.now }
    {
        let mut marks: [u32; MARK_WORDS] = [0; MARK_WORDS];
        for (i, word) in words.iter().enumerate() {
            let id = *word;
            let set_before = set_mark(&mut marks, self.mark_of(id));
            if set_before && has(&words[..i], id) {
                return false;
            }
        }
        true
    }

    // Whether a full room, in order, has none of a class from one row on.
    fn none_again(self, part: &[u32], from: usize, room: &[u32]) -> bool
        requires { (length room.now ≡ room_length) × (climbs room.now ≡ true) }
        ensures { result ≡ apart room.now (of_class self.classes self.class (rows part.now) from) }
    {
        let n = part.len() / ENTRY_WORDS;
        for k in from..n {
            let id = part[ENTRY_WORDS * k];
            if self.class_of(id) == self.class && holds(room, id) {
                return false;
            }
        }
        true
    }

    // Whether the ids of a class differ. A room that holds all that are left, as at once in most classes, is told apart by marks; a full one is put
    // in order, and those that come later are looked up in it.
    fn differs(self, part: &[u32], room: &mut [u32]) -> bool
        requires { length room.old ≡ room_length }
        ensures { result ≡ differ (of_class self.classes self.class (rows part.now) 0) }
    {
        let n = part.len() / ENTRY_WORDS;
        let mut k: usize = 0;
        // A turn takes the rows that fill the room, and not one row.
        while k < n {
            let Gathered { found, next } = self.gather(part, k, room);
            k = next;
            if n <= k {
                return self.words_differ(&room[0..found]);
            }
            if !put_in_order(room) {
                return false;
            }
            if !self.none_again(part, k, room) {
                return false;
            }
        }
        true
    }
}

// Whether the ids of a part differ. A table often has its rows by id: then nothing need be put in order.
pub fn ids_differ(part: &[u32]) -> bool
    requires { length part.now / entry_words ≤ most_trips }
    ensures { result ≡ ids_differ (rows part.now) }
{
    if climb(part, ENTRY_WORDS) {
        return true;
    }
    let mut room: [u32; ROOM] = [0; ROOM];
    let classes = (part.len() / ENTRY_WORDS / EVEN) as u64 + 1;
    for class in 0..classes {
        if !(Class { classes, class }).differs(part, &mut room) {
            return false;
        }
    }
    true
}
