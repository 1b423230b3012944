// How many entries the halves of a directory have.
ghost use Rattle.std.specs.Prelude.{◌≡◌, ◌*◌, ◌≤◌, ◌<◌, length, get_or};
ghost use Rattle.ruler.specs.Ruler.{deepest};
ghost use Rattle.layout.specs.Words.{entry_words, partitions};
ghost use Rattle.store.specs.Halves.{total};

use layout::ENTRY_WORDS;
use layout::directory::half_length;

// The last word of a half: as many entries as it has. A whole directory ends with the replicas' half.
pub fn entries_of(dir: &[u32]) -> usize
    requires { 0 < length dir.now }
    ensures { result ≡ total dir.now }
{
    dir[dir.len() - 1] as usize
}

// The words that the entries of a half take.
pub fn words_of(dir: &[u32]) -> usize
    requires { 0 < length dir.now }
    ensures { result ≡ entry_words * total dir.now }
{
    ENTRY_WORDS * entries_of(dir)
}

// The number of an index's trips: each has one original.
pub fn trips_of(m: u32, directory: &[u32]) -> usize
    requires { (m ≤ deepest) × (2 * partitions m < length directory.now) }
    ensures { result ≡ get_or directory.now (2 * partitions m) 0 }
{
    let half = half_length(m);
    entries_of(&directory[0..half])
}
