// Days (T-07). Three trips have the same times, [1,2] under w = 2 and m = 2, with an original and a replica each: trip 5 runs on day 0, trip 4 on day 1
// and trip 7 on day 31. What a check says of days is among the cases of damage.
use crate::say;
use ruler::Numbers;
use std::io;
use store::words::Words;
use trip::{Asking, Trip};

const TABLE: [u32; 12] = [5, 1, 2, 1, 4, 1, 2, 2, 7, 1, 2, 2147483648];

// The same without trip 7.
const REST: [u32; 8] = [4, 1, 2, 2, 5, 1, 2, 1];

fn ruler() -> Numbers {
    say::ruler(2, 2)
}

// Whether so many trips share a second of [0,3] on a day, and the list of two words, which were 9, is then this one.
fn lists(words: Words, day: u32, count: u32, list: &[u32; 2]) -> bool {
    say::lists(ruler(), words, Asking::of(13, 0, 3, day), 9, count, list)
}

// Whether a question with no word for its answer is refused with this number and this detail.
fn gets(words: Words, asking: Asking, number: u32, detail: u32) -> bool {
    say::unasked(ruler(), words, asking, &[], number, detail)
}

fn questions(rt: &impl Print, words: Words) -> io::Result<()> {
    let first = lists(words, 0, 1, &[5, 9]);
    let second = lists(words, 1, 1, &[4, 9]);
    let last = lists(words, 31, 1, &[7, 9]);
    let none = lists(words, 2, 0, &[9, 9]);
    say::case(
        rt,
        first & second & last & none,
        b"days: each trip on its own",
    )?;
    let one = gets(words, Asking::of(13, 0, 3, 31), 7, 1);
    let other_day = Asking::of(13, 0, 3, 30);
    let none = ask::ask(ruler(), words, other_day, &mut []) == Ok(0);
    say::case(rt, one & none, b"days: 7 counts the trips of the day")
}

// The list has no word, so that 7 would come where 17 didn't.
fn no_such_day(rt: &impl Print, words: Words) -> io::Result<()> {
    let next = gets(words, Asking::of(13, 0, 3, 32), 17, 0);
    let most = gets(words, Asking::of(13, 0, 3, 4294967295), 17, 0);
    say::case(rt, next & most, b"days: day 32 gives 17")?;
    let code = gets(words, Asking::of(14, 0, 3, 32), 9, 0);
    let off = gets(words, Asking::of(13, 0, 4, 32), 4, 0);
    let backward = gets(words, Asking::of(13, 3, 0, 32), 5, 0);
    say::case(rt, code & off & backward, b"days: 9, 4 and 5 before 17")
}

// Whether a build is refused and writes nothing.
fn unbuilt(table: &[u32], number: u32, detail: u32) -> bool {
    say::unbuilt(ruler(), table, &[7; 30], &[7; 8], number, detail)
}

fn no_days(rt: &impl Print) -> io::Result<()> {
    let one = unbuilt(&[5, 1, 2, 1, 4, 1, 2, 0], 16, 1);
    let earlier = unbuilt(&[5, 1, 2, 0, 4, 1, 9, 1], 16, 0);
    say::case(rt, one & earlier, b"days: a row of no day gives 16")?;
    let taken = unbuilt(&[5, 1, 2, 1, 5, 1, 2, 0], 6, 1);
    let backward = unbuilt(&[5, 2, 1, 0], 5, 0);
    let off = unbuilt(&[5, 1, 4, 0], 4, 0);
    say::case(rt, taken & backward & off, b"days: 4, 5 and 6 before 16")?;
    say::case(rt, unbuilt(&[5, 1, 2], 2, 0), b"days: a row of three words")
}

// Whether an addition gets this number, and the words are then those of the table.
fn adds(d: &mut [u32; 30], o: &mut [u32; 12], r: &mut [u32; 12], t: Trip, number: u32) -> bool {
    say::adds(ruler(), d, o, r, t, number, &TABLE)
}

// Additions that change nothing. Then trip 7 goes and comes again: the others keep their days, and it has its own.
fn edits(rt: &impl Print) -> io::Result<()> {
    let mut d = [7u32; 30];
    let mut o = [7u32; 12];
    let mut r = [7u32; 12];
    let _ = build::build(ruler(), &TABLE, &mut d, &mut o, &mut r);
    let full = adds(&mut d, &mut o, &mut r, Trip::of(8, 1, 2, 1), 7);
    let idle = adds(&mut d, &mut o, &mut r, Trip::of(8, 1, 2, 0), 16);
    let taken = adds(&mut d, &mut o, &mut r, Trip::of(5, 1, 2, 0), 6);
    say::case(rt, full & idle & taken, b"days: an addition gets 6, 16, 7")?;
    let without = say::goes(ruler(), &mut d, &mut o, &mut r, 7, &REST);
    say::case(rt, without, b"days: a removal keeps the others'")?;
    let again = Trip::of(7, 1, 2, 2147483648);
    let with = adds(&mut d, &mut o, &mut r, again, 0);
    say::case(rt, with, b"days: an addition brings its own")
}

fn asked(rt: &impl Print) -> io::Result<()> {
    let mut d = [7u32; 30];
    let mut o = [7u32; 12];
    let mut r = [7u32; 12];
    let _ = build::build(ruler(), &TABLE, &mut d, &mut o, &mut r);
    let words = say::words(&d, &o, &r);
    questions(rt, words)?;
    no_such_day(rt, words)
}

pub fn all(rt: &impl Print) -> io::Result<()> {
    asked(rt)?;
    no_days(rt)?;
    edits(rt)
}
