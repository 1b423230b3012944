// How many entries each subdivision of each level has, read off the directory.
ghost use Rattle.std.specs.Prelude.{◌≡◌, ◌*◌, ◌≤◌};
ghost use Rattle.view.specs.Directory.{every_second, count_of, row_of, rows_of, Rising, Halves};

use crate::slots::slot_at;
use crate::{LEVELS, SUBDIVISIONS};
use layout::Subdivision;
use ruler::power;

// The entries of n slots, each the second after the one before it: the "in" slots of a level, or its "aft" slots.
#[tactic(auto, unfolding(crate::specs::Directory::every_second))]
fn every_second(directory: &[u32], from: usize, n: usize) -> u32
    requires { Rising directory.now from (2 * n) }
    ensures { result ≡ every_second directory.now from n }
{
    let mut total: u32 = 0;
    for i in 0..n {
        let at = from + 2 * i;
        total += directory[at + 1] - directory[at];
    }
    total
}

// The entries of one subdivision of a level.
#[tactic(auto, using(crate::proofs::SlotWords::level_rising), unfolding(crate::specs::Directory::count_of, layout::specs::Stored::partitions_at))]
fn level_count(directory: &[u32], m: u32, level: u32, d: Subdivision) -> u32
    requires { Halves m directory.now × (level ≤ m) }
    ensures { result ≡ count_of directory.now m level d }
{
    every_second(directory, slot_at(m, level, 0, d), power(level) as usize)
}

// The entries of the four subdivisions of a level: none of a level above m.
#[tactic(auto, unfolding(crate::specs::Directory::row_of, crate::specs::Directory::count_of))]
fn level_row(directory: &[u32], m: u32, level: u32) -> [u32; SUBDIVISIONS]
    requires { Halves m directory.now }
    ensures { result ≡ row_of directory.now m level }
{
    if m < level {
        return [0; SUBDIVISIONS];
    }
    let o_in = level_count(directory, m, level, Subdivision::OIn);
    let o_aft = level_count(directory, m, level, Subdivision::OAft);
    let r_in = level_count(directory, m, level, Subdivision::RIn);
    let r_aft = level_count(directory, m, level, Subdivision::RAft);
    [o_in, o_aft, r_in, r_aft]
}

// The rows of all levels.
pub fn level_rows(directory: &[u32], m: u32) -> [[u32; SUBDIVISIONS]; LEVELS]
    requires { Halves m directory.now }
    ensures { result ≡ rows_of directory.now m }
{
    let mut rows = [[0u32; SUBDIVISIONS]; LEVELS];
    for level in 0..LEVELS {
        rows[level] = level_row(directory, m, level as u32);
    }
    rows
}
