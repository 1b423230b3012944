// The second ruler. The first cases have m = 3, lo = 40 and hi = 60. The level-3 cell of t is the whole part of (t - 40) x 7 / 20: 40 to 42 are
// cell 0, 43 to 45 cell 1, 46 to 48 cell 2, 49 to 51 cell 3, 52 to 54 cell 4, 55 to 57 cell 5, 58 and 59 cell 6, and 60 alone is cell 7.
use crate::say;
use ruler::Numbers;
use std::io;
use store::words::Words;
use trip::{Asking, Trip};

// Trips 8 [44,60], 2 [58,59], 6 [40,60] and 3 [60,60]; and the same without trip 8. All trips run on day 0, the bit of value 1.
const TABLE: [u32; 16] = [8, 44, 60, 1, 2, 58, 59, 1, 6, 40, 60, 1, 3, 60, 60, 1];

const REST: [u32; 12] = [3, 60, 60, 1, 6, 40, 60, 1, 2, 58, 59, 1];

fn from_40_to_60() -> Numbers {
    say::spread(3, 40, 60)
}

// Whether a run is these words.
fn shows(words: Words, level: u32, partition: u32, subdivision: u32, right: &[u32]) -> bool {
    let outcome = view::run_outcome(from_40_to_60(), words, level, partition, subdivision);
    let run = view::run(
        from_40_to_60(),
        words.directory,
        words.originals,
        words.replicas,
        level,
        partition,
        subdivision,
    );
    say::is(outcome, 0, 0) && *run == *right
}

// Trip 8 has cells 1 to 7: cell 1 is level 3 partition 1, O_aft; cells 2 and 3 are level 2 partition 1, R_aft; and cells 4 to 7 are level 1
// partition 1, R_in. Trip 2 has cell 6 and trip 3 cell 7, each a partition of level 3, and trip 6 has all cells, level 0: O_in all three.
fn places(rt: &impl Print, words: Words) -> io::Result<()> {
    let first = shows(words, 3, 1, 1, &[8, 44, 60, 1]);
    let between = shows(words, 2, 1, 3, &[8, 44, 60, 1]);
    let last = shows(words, 1, 1, 2, &[8, 44, 60, 1]);
    say::case(rt, first & between & last, b"spread: runs of trip 8")?;
    let two = shows(words, 3, 6, 0, &[2, 58, 59, 1]);
    let six = shows(words, 0, 0, 0, &[6, 40, 60, 1]);
    let three = shows(words, 3, 7, 0, &[3, 60, 60, 1]);
    say::case(rt, two & six & three, b"spread: runs of trips 2, 6 and 3")
}

fn census(rt: &impl Print, words: Words) -> io::Result<()> {
    let mut right = [[0; 4]; 11];
    right[0] = [1, 0, 0, 0];
    right[1] = [0, 0, 1, 0];
    right[2] = [0, 0, 0, 1];
    right[3] = [2, 1, 0, 0];
    let same = say::counts(from_40_to_60(), words, right);
    say::case(rt, same, b"spread: census")
}

// Whether so many trips stand in a relationship to a window, and the list of four words, which were 5, is then this one.
fn lists(ruler: Numbers, words: Words, asking: Asking, count: u32, list: &[u32; 4]) -> bool {
    say::lists(ruler, words, asking, 5, count, list)
}

// Trip 8 shares cell 1 with [43,43], and [57,57] lies in the cell before that of trip 2: neither is listed. The window [40,60] is the whole ruler.
fn questions(rt: &impl Print, ruler: Numbers, words: Words, name: &[u8]) -> io::Result<()> {
    let cell = lists(ruler, words, Asking::of(13, 43, 43, 0), 1, &[6, 5, 5, 5]);
    let next = lists(ruler, words, Asking::of(13, 57, 57, 0), 2, &[6, 8, 5, 5]);
    let all = lists(ruler, words, Asking::of(13, 40, 60, 0), 4, &[2, 3, 6, 8]);
    let before = lists(ruler, words, Asking::of(11, 40, 59, 0), 1, &[3, 5, 5, 5]);
    let within = lists(ruler, words, Asking::of(10, 45, 59, 0), 2, &[6, 8, 5, 5]);
    say::case(rt, cell & next & all & before & within, name)
}

// Whether a question is refused with this number, and the list stays.
fn unasked(words: Words, start: u32, end: u32, number: u32) -> bool {
    let asking = Asking::of(13, start, end, 0);
    say::unasked(from_40_to_60(), words, asking, &[5; 4], number, 0)
}

fn windows(rt: &impl Print, words: Words) -> io::Result<()> {
    let early = unasked(words, 39, 60, 4);
    let late = unasked(words, 40, 61, 4);
    say::case(
        rt,
        early & late,
        b"spread: windows [39,60] and [40,61] give 4",
    )?;
    let both = unasked(words, 61, 39, 4) & unasked(words, 60, 40, 5);
    say::case(rt, both, b"spread: window [61,39] gives 4, [60,40] gives 5")
}

// The words under other rulers. From 40 to 61 the last second of trip 8 is in cell 6; under w = 6 it begins in cell 5. From 39 to 60 a cell is
// three seconds, 39 to 41 the first, and the trips have the cells that they had, 60 alone the last.
fn other_rulers(rt: &impl Print, words: Words) -> io::Result<()> {
    let kind = say::ruler(6, 3);
    say::checked(rt, kind, words, 8, b"spread: words of it under w 6, m 3")?;
    let later = say::spread(3, 40, 61);
    say::checked(rt, later, words, 8, b"spread: words of it from 40 to 61")?;
    let sooner = say::spread(3, 40, 59);
    say::checked(rt, sooner, words, 8, b"spread: a ruler that ends too soon")?;
    let flatter = say::spread(2, 40, 60);
    say::checked(rt, flatter, words, 3, b"spread: a flatter ruler")?;
    let earlier = say::spread(3, 39, 60);
    say::checked(rt, earlier, words, 0, b"spread: words of it from 39 to 60")?;
    questions(rt, earlier, words, b"spread: the same ids from 39 to 60")
}

// All that is asked of the index of the four trips.
fn answers(rt: &impl Print, words: Words) -> io::Result<()> {
    let ruler = from_40_to_60();
    say::checked(rt, ruler, words, 0, b"spread: check")?;
    places(rt, words)?;
    census(rt, words)?;
    questions(rt, ruler, words, b"spread: questions")?;
    windows(rt, words)?;
    other_rulers(rt, words)
}

fn four_trips(rt: &impl Print) -> io::Result<()> {
    let mut directory = [7u32; 62];
    let mut originals = [7u32; 17];
    let mut replicas = [7u32; 9];
    let built = build::build(
        from_40_to_60(),
        &TABLE,
        &mut directory,
        &mut originals,
        &mut replicas,
    );
    say::case(
        rt,
        say::is(built, 0, 0),
        b"spread: lo and hi are on the ruler",
    )?;
    answers(rt, say::words(&directory, &originals, &replicas))?;
    originals[16] = 1;
    let name = b"spread: a spare word";
    let words = say::words(&directory, &originals, &replicas);
    say::checked(rt, from_40_to_60(), words, 8, name)
}

// The case that a build is refused and writes nothing.
fn refused(
    rt: &impl Print,
    ruler: Numbers,
    table: &[u32],
    number: u32,
    detail: u32,
    name: &[u8],
) -> io::Result<()> {
    let kept = say::unbuilt(ruler, table, &[7; 62], &[7; 8], number, detail);
    say::case(rt, kept, name)
}

fn bad_rows(rt: &impl Print) -> io::Result<()> {
    let ruler = from_40_to_60();
    let early = [6, 40, 60, 1, 1, 39, 60, 1];
    refused(
        rt,
        ruler,
        &early,
        4,
        1,
        b"spread: a start of lo - 1 gives 4",
    )?;
    let late = [1, 40, 61, 1, 6, 40, 60, 1];
    refused(rt, ruler, &late, 4, 0, b"spread: an end of hi + 1 gives 4")?;
    refused(rt, ruler, &[1, 61, 39, 1], 4, 0, b"spread: [61,39] gives 4")?;
    refused(rt, ruler, &[1, 60, 40, 1], 5, 0, b"spread: [60,40] gives 5")
}

// Numbers that are no ruler's, and an empty table.
fn unruled(rt: &impl Print, m: u32, lo: u32, hi: u32, name: &[u8]) -> io::Result<()> {
    refused(rt, say::spread(m, lo, hi), &[0; 0], 1, 0, name)
}

fn bad_rulers(rt: &impl Print) -> io::Result<()> {
    unruled(rt, 3, 60, 60, b"spread: lo = hi gives 1")?;
    unruled(rt, 3, 60, 40, b"spread: lo > hi gives 1")?;
    unruled(rt, 3, 0, 16777216, b"spread: hi = 2^24 gives 1")?;
    unruled(rt, 11, 40, 60, b"spread: m = 11 gives 1")
}

// Edits that are refused, and change nothing: with times off the ruler, with numbers that are no ruler's, and under a ruler that these words are no
// index of.
fn off_the_ruler(d: &mut [u32; 62], o: &mut [u32; 16], r: &mut [u32; 8]) -> bool {
    let ruler = from_40_to_60();
    let early = say::adds(ruler, d, o, r, Trip::of(8, 39, 60, 1), 4, &REST);
    let late = say::adds(ruler, d, o, r, Trip::of(8, 44, 61, 1), 4, &REST);
    early & late
}

fn under_others(d: &mut [u32; 62], o: &mut [u32; 16], r: &mut [u32; 8]) -> bool {
    let unruled = edit::add(say::spread(3, 60, 60), d, o, r, Trip::of(8, 60, 60, 1));
    let other = edit::remove(say::spread(3, 40, 61), d, o, r, 3);
    let same = say::built(from_40_to_60(), &REST, d, o, r);
    say::is(unruled, 1, 0) & say::is(other, 8, 0) & same
}

// Trip 8 comes and goes: the words are those of a build with it, and of one without it.
fn comes(d: &mut [u32; 62], o: &mut [u32; 16], r: &mut [u32; 8]) -> bool {
    say::adds(from_40_to_60(), d, o, r, Trip::of(8, 44, 60, 1), 0, &TABLE)
}

fn goes(d: &mut [u32; 62], o: &mut [u32; 16], r: &mut [u32; 8]) -> bool {
    say::goes(from_40_to_60(), d, o, r, 8, &REST)
}

fn edits(rt: &impl Print) -> io::Result<()> {
    let mut directory = [7u32; 62];
    let mut originals = [7u32; 16];
    let mut replicas = [7u32; 8];
    let _ = build::build(
        from_40_to_60(),
        &REST,
        &mut directory,
        &mut originals,
        &mut replicas,
    );
    let kept = off_the_ruler(&mut directory, &mut originals, &mut replicas);
    say::case(rt, kept, b"spread: edits with times off the ruler")?;
    let kept = under_others(&mut directory, &mut originals, &mut replicas);
    say::case(rt, kept, b"spread: edits under other rulers")?;
    let with = comes(&mut directory, &mut originals, &mut replicas);
    say::case(rt, with, b"spread: an addition is the build with it")?;
    let without = goes(&mut directory, &mut originals, &mut replicas);
    say::case(rt, without, b"spread: a removal is the build without it")
}

// Whether under both kinds trip 9 alone of these words shares a second with [0,2].
fn listed_under_both(words: Words) -> bool {
    let asking = Asking::of(13, 0, 2, 0);
    let list = [9, 5, 5, 5];
    let one = lists(say::spread(2, 0, 3), words, asking, 1, &list);
    let other = lists(say::ruler(2, 2), words, asking, 1, &list);
    one & other
}

// Under w = 2, m = 2 and from 0 to 3 with m = 2 a second is a cell: a table has the same words under both. Trips 9 [2,3] and 4 [3,3] are
// level 1 partition 1 and level 2 partition 3.
fn both_kinds(rt: &impl Print) -> io::Result<()> {
    let mut directory = [7u32; 30];
    let mut originals = [7u32; 8];
    let spread = say::spread(2, 0, 3);
    let bits = say::ruler(2, 2);
    let table = [4, 3, 3, 1, 9, 2, 3, 1];
    let built = build::build(spread, &table, &mut directory, &mut originals, &mut []);
    say::case(rt, say::is(built, 0, 0), b"from 0 to 3")?;
    let name = b"its words under w 2, m 2";
    let words = say::words(&directory, &originals, &[]);
    say::checked(rt, bits, words, 0, name)?;
    let same = listed_under_both(words);
    say::case(rt, same, b"the same id under both")
}

// No trips: an index under every ruler of this m.
fn no_trips(rt: &impl Print) -> io::Result<()> {
    let d = [0u32; 30];
    let words = say::words(&d, &[0], &[]);
    let short = say::spread(2, 0, 1);
    say::checked(rt, short, words, 0, b"no trips, from 0 to 1")?;
    let long = say::spread(2, 9, 16777215);
    say::checked(rt, long, words, 0, b"no trips, from 9 to 2^24 - 1")?;
    say::checked(rt, say::ruler(24, 2), words, 0, b"no trips, under w 24")
}

// Builds one trip under a ruler with m = 10, and says whether its only entry is the original of a partition, in its "in" slot.
fn stands_at(ruler: Numbers, trip: &[u32], level: u32, partition: u32) -> bool {
    let mut directory = [7u32; 8190];
    let mut originals = [7u32; 4];
    let built = build::build(ruler, trip, &mut directory, &mut originals, &mut []);
    let words = say::words(&directory, &originals, &[]);
    let run = view::run(
        ruler,
        words.directory,
        words.originals,
        words.replicas,
        level,
        partition,
        0,
    );
    say::is(built, 0, 0) && *run == *trip
}

// The widest ruler: (2^24 - 2) x 1023 / (2^24 - 1) is less than 1023 by a part of 1, so the second before the last is in cell 1022, and both in
// partition 511 of level 9. The product has 34 bits. From 41 to 42 there are 1024 cells for two seconds, the first and the last.
fn widest_and_narrowest(rt: &impl Print) -> io::Result<()> {
    let widest = say::spread(10, 0, 16777215);
    let end = stands_at(widest, &[5, 16777214, 16777215, 1], 9, 511);
    say::case(rt, end, b"from 0 to 2^24 - 1")?;
    let narrowest = say::spread(10, 41, 42);
    let first = stands_at(narrowest, &[5, 41, 41, 1], 10, 0);
    let last = stands_at(narrowest, &[5, 42, 42, 1], 10, 1023);
    let both = stands_at(narrowest, &[5, 41, 42, 1], 0, 0);
    say::case(rt, first & last & both, b"from 41 to 42")
}

// It runs at 24:30:00, and not at 0:30:00.
fn runs_by_night(ruler: Numbers, words: Words) -> bool {
    let by_night = Asking::of(13, 88200, 88800, 0);
    let by_day = Asking::of(13, 1800, 2400, 0);
    let found = lists(ruler, words, by_night, 1, &[9, 5, 5, 5]);
    found & lists(ruler, words, by_day, 0, &[5; 4])
}

// A timetable that ends at 28:00:00, and the trip from 23:40:00 to 25:10:00.
fn past_midnight(rt: &impl Print) -> io::Result<()> {
    let mut directory = [7u32; 8190];
    let mut originals = [7u32; 4];
    let mut replicas = [7u32; 68];
    let ruler = say::spread(10, 0, 100800);
    let _ = build::build(
        ruler,
        &[9, 85200, 90600, 1],
        &mut directory,
        &mut originals,
        &mut replicas,
    );
    let words = say::words(&directory, &originals, &replicas);
    let right = runs_by_night(ruler, words);
    say::case(rt, right, b"23:40:00 to 25:10:00 of 28 hours")
}

pub fn all(rt: &impl Print) -> io::Result<()> {
    four_trips(rt)?;
    bad_rows(rt)?;
    bad_rulers(rt)?;
    edits(rt)?;
    both_kinds(rt)?;
    no_trips(rt)?;
    widest_and_narrowest(rt)?;
    past_midnight(rt)
}
