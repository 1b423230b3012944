// The most trips that an index may have: 4,096 in one slot, 4,096 of 18 partitions each, and edits where there is no room for one more.
use crate::say;
use crate::say::EVERY_DAY;
use layout::ENTRY_WORDS;
use std::io;
use trip::Trip;

// Rows 0, 1, .. of trips with the same times.
fn fill_rows(table: &mut [u32], start: u32, end: u32) {
    for (id, row) in table.chunks_exact_mut(ENTRY_WORDS).enumerate() {
        row.copy_from_slice(&[(id % 65536) as u32, start, end, EVERY_DAY]);
    }
}

// 4,096 rows with 18 partitions each: 17 replicas beside the original.
fn most_partitions(rt: &impl Print) -> io::Result<()> {
    let mut table = [0u32; ENTRY_WORDS * 4096];
    fill_rows(&mut table, 256, 261632);
    let mut directory = [7u32; 8190];
    let mut originals = [7u32; ENTRY_WORDS * 4096];
    let mut replicas = [7u32; ENTRY_WORDS * 69632];
    let outcome = build::build(
        say::ruler(18, 10),
        &table,
        &mut directory,
        &mut originals,
        &mut replicas,
    );
    let words = say::words(&directory, &originals, &replicas);
    let checked = verify::check(say::ruler(18, 10), words);
    say::case(
        rt,
        say::is(outcome, 0, 0) & say::is(checked, 0, 0),
        b"4096 trips of 18 partitions",
    )
}

// Whether the originals of trips that all lie in the first second are their table, with a row's room to spare.
fn is_table(table: &[u32], originals: &[u32]) -> bool {
    originals.starts_with(table)
}

// With 4,096 trips one more gives 2, whatever its times and days are, and nothing changes.
fn one_too_many(table: &[u32], directory: &mut [u32], originals: &mut [u32]) -> bool {
    let fair = Trip::of(5000, 0, 0, EVERY_DAY);
    let refused = edit::add(say::ruler(1, 1), directory, originals, &mut [], fair);
    let bad = Trip::of(0, 9, 8, 0);
    let bad_refused = edit::add(say::ruler(1, 1), directory, originals, &mut [], bad);
    say::is(refused, 2, 0) & say::is(bad_refused, 2, 0) & is_table(table, originals)
}

// Trip 17 out and in again: the words are those of the table again.
fn out_and_in(table: &[u32], directory: &mut [u32], originals: &mut [u32]) -> bool {
    let out = edit::remove(say::ruler(1, 1), directory, originals, &mut [], 17);
    let back = Trip::of(17, 0, 0, EVERY_DAY);
    let again = edit::add(say::ruler(1, 1), directory, originals, &mut [], back);
    say::is(out, 0, 0) & say::is(again, 0, 0) & is_table(table, originals)
}

fn edits(
    rt: &impl Print,
    table: &[u32],
    directory: &mut [u32],
    originals: &mut [u32],
) -> io::Result<()> {
    let more = one_too_many(table, directory, originals);
    say::case(rt, more, b"one more than 4096 trips gives 2")?;
    let same = out_and_in(table, directory, originals);
    say::case(rt, same, b"one of 4096 trips out and in again")
}

// 4,096 rows in one slot: the originals are the table again.
fn one_slot(rt: &impl Print) -> io::Result<()> {
    let mut table = [0u32; ENTRY_WORDS * 4096];
    fill_rows(&mut table, 0, 0);
    let mut directory = [7u32; 14];
    let mut originals = [7u32; ENTRY_WORDS * 4097];
    let built = build::build(
        say::ruler(1, 1),
        &table,
        &mut directory,
        &mut originals,
        &mut [],
    );
    let right = say::is(built, 0, 0) & is_table(&table, &originals);
    say::case(rt, right, b"4096 trips in one slot")?;
    edits(rt, &table, &mut directory, &mut originals)
}

pub fn all(rt: &impl Print) -> io::Result<()> {
    most_partitions(rt)?;
    one_slot(rt)
}
