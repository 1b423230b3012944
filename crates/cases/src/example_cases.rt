// Document 01's examples that a program runs: two questions and the census of its four trips, tables of one trip, and the empty table. "Document 01's
// cases are run with every bit set and day 0" (T-07).
use crate::say;
use crate::say::EVERY_DAY;
use std::io;
use store::words::Words;
use trip::Asking;

// Two questions to the four trips, in a list of four words. The list has the id first, and after it the words that it had.
fn lists_one(words: Words, code: u32, start: u32, end: u32, id: u32) -> bool {
    let asking = Asking::of(code, start, end, 0);
    say::lists(say::ruler(6, 4), words, asking, 5, 1, &[id, 5, 5, 5])
}

// "CONTAINED_BY [1,62]: 9. FINISHES [30,38]: 7."
fn questions(rt: &impl Print, words: Words) -> io::Result<()> {
    say::case(
        rt,
        lists_one(words, 10, 1, 62, 9),
        b"CONTAINED_BY [1,62]: 9",
    )?;
    say::case(rt, lists_one(words, 3, 30, 38, 7), b"FINISHES [30,38]: 7")
}

// "Census: level 0 is 1,0,0,0; level 3 is 0,0,1,1; level 4 is 1,2,1,0; others zero."
fn census(rt: &impl Print, words: Words) -> io::Result<()> {
    let mut right = [[0; 4]; 11];
    right[0] = [1, 0, 0, 0];
    right[3] = [0, 0, 1, 1];
    right[4] = [1, 2, 1, 0];
    let same = say::counts(say::ruler(6, 4), words, right);
    say::case(rt, same, b"census of the four trips")
}

// "Ruler w = 6, m = 4; trips 7 [21,38], 3 [20,20], 9 [0,63], 4 [39,40]."
fn four_trips(rt: &impl Print) -> io::Result<()> {
    let mut directory = [7u32; 126];
    let mut originals = [7u32; 16];
    let mut replicas = [7u32; 16];
    let _ = build::build(
        say::ruler(6, 4),
        &[
            7, 21, 38, EVERY_DAY, 3, 20, 20, EVERY_DAY, 9, 0, 63, EVERY_DAY, 4, 39, 40, EVERY_DAY,
        ],
        &mut directory,
        &mut originals,
        &mut replicas,
    );
    let words = say::words(&directory, &originals, &replicas);
    questions(rt, words)?;
    census(rt, words)
}

// "w = 1, m = 1, trip 5 [0,0]: originals half 0,0,0,1,1,1,1; replicas half all 0."
fn one_second(rt: &impl Print) -> io::Result<()> {
    let right = say::built(
        say::ruler(1, 1),
        &[5, 0, 0, EVERY_DAY],
        &[0, 0, 0, 1, 1, 1, 1, 0, 0, 0, 0, 0, 0, 0],
        &[5, 0, 0, EVERY_DAY, 0],
        &[0, 0],
    );
    say::case(rt, right, b"w 1 m 1, trip 5 [0,0]")
}

// "w = 1, m = 0, trip 5 [0,1]: directory 0,1,1,0,0,0."
fn one_level(rt: &impl Print) -> io::Result<()> {
    let right = say::built(
        say::ruler(1, 0),
        &[5, 0, 1, EVERY_DAY],
        &[0, 1, 1, 0, 0, 0],
        &[5, 0, 1, EVERY_DAY],
        &[0, 0, 0],
    );
    say::case(rt, right, b"w 1 m 0, trip 5 [0,1]")
}

// "Empty table: all words 0, accepted even with empty arenas."
fn empty_table(rt: &impl Print) -> io::Result<()> {
    let right = say::built(say::ruler(6, 4), &[], &[0; 126], &[], &[]);
    say::case(rt, right, b"an empty table")
}

pub fn all(rt: &impl Print) -> io::Result<()> {
    four_trips(rt)?;
    one_second(rt)?;
    one_level(rt)?;
    empty_table(rt)
}
