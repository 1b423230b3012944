// A test port for harnesses in other languages: one call a line on standard input, its answer one line on standard output. A line of
// another form is answered `bad line`, and the next line is read. A call is a row of the table in `rows`.
#![tactic(auto)]

ghost use Rattle.std.specs.Prelude.{◌≤◌, length, IfSome};

mod calls;
mod input;
mod print;
mod rows;
mod scan;

use input::{CHUNK, LINE};
use rows::{Buffers, FIRST, READ, Row, SECOND, THIRD};
use scan::{Fields, Named};
use std::io;
use std::io::Read;

// A line that is a call: its row, its numbers, and where the buffers end that it only reads and that it may write.
#[derive(Clone, Copy)]
struct Line {
    row: Row,
    numbers: Named,
    reads: Buffers,
    writes: Buffers,
}

// Reads the whole of a line, where it is a call.
fn line_of(
    line: &[u8],
    read: &mut [u32],
    first: &mut [u32],
    second: &mut [u32],
    third: &mut [u32],
) -> Option<Line>
    ensures first_in_bounds { IfSome result (λ line. line.writes.first ≤ length first.new) }
    ensures second_in_bounds { IfSome result (λ line. line.writes.second ≤ length second.new) }
    ensures third_in_bounds { IfSome result (λ line. line.writes.third ≤ length third.new) }
{
    let mut fields = Fields::of(line);
    let row = rows::row_named(&mut fields)?;
    let numbers = fields.named(row.numbers)?;
    let reads = fields.reads(row.reads, read)?;
    let writes = fields.writes(row.writes, first, second, third)?;
    if !fields.is_done() {
        return None;
    }
    Some(Line {
        row,
        numbers,
        reads,
        writes,
    })
}

// Answers what is held of a line. Nothing is called or written before the whole line is read.
fn answer(
    rt: &impl Print,
    kept: &[u8],
    held: usize,
    read: &mut [u32],
    first: &mut [u32],
    second: &mut [u32],
    third: &mut [u32],
) -> io::Result<()> {
    match line_of(input::line_of(kept, held), read, first, second, third) {
        Some(line) => calls::make(
            rt,
            line.row,
            line.numbers,
            line.reads,
            line.writes,
            read,
            first,
            second,
            third,
        ),
        None => rt.write_all(b"bad line\n"),
    }
}

// Reads the input to its end. A proved loop has to end, so it has a number of turns that no run uses up. The loop stands
// apart from `main`, as a loop over arrays that are lent is proved in a quarter of the time that one over its own arrays takes.
fn take_all<R: Read>(
    rt: &impl Print,
    reader: &mut R,
    line: &mut [u8; LINE],
    chunk: &mut [u8; CHUNK],
    read: &mut [u32; READ],
    first: &mut [u32; FIRST],
    second: &mut [u32; SECOND],
    third: &mut [u32; THIRD],
) -> io::Result<()> {
    let mut standing = input::begin();
    for _ in 0..u64::MAX {
        standing = input::next_line(reader, standing, chunk, line)?;
        if !standing.whole {
            return Ok(());
        }
        answer(rt, line, standing.held, read, first, second, third)?;
    }
    Ok(())
}

fn main(rt: HostRuntime) -> io::Result<()> {
    let mut reader = rt.stdin();
    let mut line = [0u8; LINE];
    let mut chunk = [0u8; CHUNK];
    let mut read = [0u32; READ];
    let mut first = [0u32; FIRST];
    let mut second = [0u32; SECOND];
    let mut third = [0u32; THIRD];
    take_all(
        &rt,
        &mut reader,
        &mut line,
        &mut chunk,
        &mut read,
        &mut first,
        &mut second,
        &mut third,
    )
}
