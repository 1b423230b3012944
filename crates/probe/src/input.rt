// Reading the input: it comes in chunks, and a line is kept until its newline.
ghost use Rattle.std.specs.Prelude.{◌≡◌, ◌≤◌, length, IfOk};

use std::io;
use std::io::Read;

// What is kept of a line. The longest call is a build under the second ruler with every buffer full: its name, the ruler's word after a space, and
// 101,007 numbers of at most ten digits, each after a space, are 1,111,089 bytes. So a line that fills this is no call.
pub const LINE: usize = 1200000;

// How much is read at once.
pub const CHUNK: usize = 65536;

// What is held of a line, and whether it is whole; the part of the chunk that is left, from `at` to `got`; and whether more is read.
// They stay numbers beside the lent line and chunk: a struct with such a buffer, of 1.2 MB, would be copied where it is handed on.
#[derive(Clone, Copy)]
pub struct Standing {
    pub held: usize,
    pub whole: bool,
    pub at: usize,
    pub got: usize,
    pub more: bool,
}

// Before the first byte.
pub fn begin() -> Standing
    ensures { result.got ≡ 0 }
{
    Standing {
        held: 0,
        whole: false,
        at: 0,
        got: 0,
        more: true,
    }
}

// How much is held of the line that goes on: nothing once the one before was whole.
fn held_on(from: Standing) -> usize {
    if from.whole {
        return 0;
    }
    from.held
}

// A byte of a line, kept where it has room.
fn keep(line: &mut [u8], held: usize, byte: u8) -> usize {
    if held < line.len() {
        line[held] = byte;
        return held + 1;
    }
    held
}

// Takes what is left of the chunk, from `at` to `got`, up to a newline.
fn take_line(chunk: &[u8], at: usize, got: usize, line: &mut [u8], from: usize) -> Standing
    requires { got ≤ length chunk.now }
    ensures { result.got ≡ got }
{
    let mut held = from;
    for i in at..got {
        let byte = chunk[i];
        if byte == b'\n' {
            return Standing {
                held,
                whole: true,
                at: i + 1,
                got,
                more: true,
            };
        }
        held = keep(line, held, byte);
    }
    Standing {
        held,
        whole: false,
        at: got,
        got,
        more: true,
    }
}

// The end of the input: the last line may lack its newline.
fn take_end(held: usize) -> Standing
    ensures { result.got ≡ 0 }
{
    Standing {
        held,
        whole: 0 < held,
        at: 0,
        got: 0,
        more: false,
    }
}

// Takes up to a newline from the chunk, which is read anew where nothing of it is left.
fn take_some<R: Read>(
    reader: &mut R,
    from: Standing,
    chunk: &mut [u8; CHUNK],
    line: &mut [u8; LINE],
) -> io::Result<Standing>
    requires { from.got ≤ CHUNK }
    ensures { IfOk result (λ standing. standing.got ≤ CHUNK) }
{
    let held = held_on(from);
    if from.at < from.got {
        return Ok(take_line(chunk, from.at, from.got, line, held));
    }
    let got = reader.read(chunk)?;
    if got == 0 {
        return Ok(take_end(held));
    }
    Ok(take_line(chunk, 0, got, line, held))
}

// Reads on to the end of a line. Where none is left it is not whole. A proved loop has to end, so it has a number of turns that no run
// uses up.
pub fn next_line<R: Read>(
    reader: &mut R,
    from: Standing,
    chunk: &mut [u8; CHUNK],
    line: &mut [u8; LINE],
) -> io::Result<Standing>
    requires { from.got ≤ CHUNK }
    ensures { IfOk result (λ standing. standing.got ≤ CHUNK) }
{
    let mut standing = from;
    for _ in 0..u64::MAX {
        if !standing.more {
            return Ok(take_end(0));
        }
        standing = take_some(reader, standing, chunk, line)?;
        if standing.whole {
            return Ok(standing);
        }
    }
    Ok(take_end(0))
}

// The line that is held. Of one that fills its buffer the rest may be missing, so it is taken for an empty one: neither is a call.
pub fn line_of(line: &[u8], held: usize) -> &[u8] {
    if line.len() <= held {
        return &line[0..0];
    }
    &line[0..held]
}
