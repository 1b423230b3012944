// The check: an index, and the same words damaged in each way that there is, once. The ruler has w = 2 and m = 2; the trips are 9 [0,0], 3 [1,3]
// and 7 [1,2], of which the last two share the O_aft slot of partition 1 of level 2 and have one replica each. Their days are 1, 6 and 8.
use crate::say;
use std::io;

// The words of the directory, of the originals and of the replicas, each arena with a word to spare.
const DIRECTORY: [u32; 30] = [
    0, 0, 0, 0, 0, 0, 0, 1, 1, 1, 3, 3, 3, 3, 3, 0, 0, 0, 0, 0, 1, 1, 1, 1, 1, 1, 2, 2, 2, 2,
];

const ORIGINALS: [u32; 13] = [9, 0, 0, 1, 3, 1, 3, 6, 7, 1, 2, 8, 0];

const REPLICAS: [u32; 9] = [3, 1, 3, 6, 7, 1, 2, 8, 0];

// The case that the check of these words answers this number.
fn says(
    rt: &impl Print,
    directory: &[u32],
    originals: &[u32],
    replicas: &[u32],
    number: u32,
    name: &[u8],
) -> io::Result<()> {
    let words = say::words(directory, originals, replicas);
    say::checked(rt, say::ruler(2, 2), words, number, name)
}

// Other originals, beside the directory and the replicas as they should be.
fn originals(rt: &impl Print, words: &[u32], name: &[u8]) -> io::Result<()> {
    says(rt, &DIRECTORY, words, &REPLICAS, 8, name)
}

// And other replicas.
fn replicas(rt: &impl Print, words: &[u32], name: &[u8]) -> io::Result<()> {
    says(rt, &DIRECTORY, &ORIGINALS, words, 8, name)
}

fn as_built(rt: &impl Print) -> io::Result<()> {
    says(rt, &DIRECTORY, &ORIGINALS, &REPLICAS, 0, b"check: as built")?;
    let tight = &ORIGINALS[0..12];
    says(
        rt,
        &DIRECTORY,
        tight,
        &REPLICAS,
        0,
        b"check: no word to spare",
    )
}

fn damaged_originals(rt: &impl Print) -> io::Result<()> {
    let words = [9, 0, 0, 1, 3, 1, 3, 6, 7, 1, 3, 8, 0];
    originals(rt, &words, b"check: a time changed")?;
    let words = [9, 0, 0, 1, 3, 1, 3, 6, 3, 1, 2, 8, 0];
    originals(rt, &words, b"check: an id twice")?;
    let words = [9, 0, 0, 1, 7, 1, 2, 8, 3, 1, 3, 6, 0];
    originals(rt, &words, b"check: out of order")?;
    let words = [9, 0, 0, 1, 3, 1, 3, 6, 7, 1, 2, 8, 1];
    originals(rt, &words, b"check: a spare word")?;
    let words = [9, 0, 0, 1, 3, 1, 3, 6, 7, 1, 2];
    originals(rt, &words, b"check: originals cut")
}

fn damaged_replicas(rt: &impl Print) -> io::Result<()> {
    replicas(
        rt,
        &[3, 1, 2, 6, 7, 1, 2, 8, 0],
        b"check: a replica changed",
    )?;
    let words = [7, 1, 2, 8, 3, 1, 3, 6, 0];
    replicas(rt, &words, b"check: replicas exchanged")?;
    let words = [3, 1, 3, 6, 7, 1, 2, 8, 1];
    replicas(rt, &words, b"check: a spare word of them")?;
    replicas(rt, &[3, 1, 3, 6, 7, 1, 2], b"check: replicas cut")
}

// A trip's days: 0 in its only entry; 0 in its original and in its replica; another day in one of the two.
fn damaged_days(rt: &impl Print) -> io::Result<()> {
    let words = [9, 0, 0, 0, 3, 1, 3, 6, 7, 1, 2, 8, 0];
    originals(rt, &words, b"check: a trip that runs on no day")?;
    let words = [9, 0, 0, 1, 3, 1, 3, 6, 7, 1, 2, 0, 0];
    let idle = [3, 1, 3, 6, 7, 1, 2, 0, 0];
    let name = b"check: no day in both entries of a trip";
    says(rt, &DIRECTORY, &words, &idle, 8, name)?;
    replicas(rt, &[3, 1, 3, 7, 7, 1, 2, 8, 0], b"check: a replica's days")?;
    let words = [9, 0, 0, 1, 3, 1, 3, 7, 7, 1, 2, 8, 0];
    originals(rt, &words, b"check: an original's days")
}

// A word of the directory that falls, one that is moved, and a total that says too many.
fn damaged_directory(rt: &impl Print) -> io::Result<()> {
    let mut directory = DIRECTORY;
    directory[12] = 2;
    let name = b"check: a word that falls";
    says(rt, &directory, &ORIGINALS, &REPLICAS, 8, name)?;
    directory[12] = 3;
    directory[7] = 0;
    let name = b"check: a word not moved";
    says(rt, &directory, &ORIGINALS, &REPLICAS, 8, name)?;
    directory[7] = 1;
    directory[29] = 3;
    let name = b"check: a total too high";
    says(rt, &directory, &ORIGINALS, &REPLICAS, 8, name)
}

// Trip 7's replica missing, with the counts as if that were right; and its original twice.
fn dropped_and_doubled(rt: &impl Print) -> io::Result<()> {
    let mut directory = DIRECTORY;
    directory[26] = 1;
    directory[27] = 1;
    directory[28] = 1;
    directory[29] = 1;
    let dropped = [3, 1, 3, 6, 0, 0, 0, 0, 0];
    let name = b"check: a replica dropped";
    says(rt, &directory, &ORIGINALS, &dropped, 8, name)?;
    let mut directory = DIRECTORY;
    directory[10] = 4;
    directory[11] = 4;
    directory[12] = 4;
    directory[13] = 4;
    directory[14] = 4;
    let doubled = [9, 0, 0, 1, 3, 1, 3, 6, 7, 1, 2, 8, 7, 1, 2, 8];
    let name = b"check: an original doubled";
    says(rt, &directory, &doubled, &REPLICAS, 8, name)
}

// The same words on other rulers.
fn on_ruler(rt: &impl Print, w: u32, m: u32, number: u32, name: &[u8]) -> io::Result<()> {
    let words = say::words(&DIRECTORY, &ORIGINALS, &REPLICAS);
    say::checked(rt, say::ruler(w, m), words, number, name)
}

fn other_rulers(rt: &impl Print) -> io::Result<()> {
    on_ruler(rt, 3, 2, 8, b"check: a wider ruler")?;
    on_ruler(rt, 2, 1, 3, b"check: a flatter ruler")?;
    on_ruler(rt, 1, 2, 1, b"check: no ruler")
}

pub fn all(rt: &impl Print) -> io::Result<()> {
    as_built(rt)?;
    damaged_originals(rt)?;
    damaged_replicas(rt)?;
    damaged_days(rt)?;
    damaged_directory(rt)?;
    dropped_and_doubled(rt)?;
    other_rulers(rt)
}
