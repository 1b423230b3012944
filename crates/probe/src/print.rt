// Writing the answer of a call: numbers with one space between, through a buffer that is written out whenever it is nearly full.
ghost use Rattle.std.specs.Prelude.{◌≡◌, ◌+◌, ◌≤◌, length, OnOk};

use std::io;

// The bytes that are written at once.
const ROOM: usize = 4096;

// The most digits of a number, and what is kept free for one more field: its digits and the byte before them.
const DIGITS: usize = text::MOST_DIGITS;

const SPARE: usize = DIGITS + 1;

// Puts the digits of a number at a place.
fn put(out: &mut [u8], at: usize, n: u32) -> usize
    requires { at + DIGITS ≤ length out.old }
    ensures { result ≤ at + DIGITS }
{
    at + text::write_number(n, &mut out[at..])
}

// A length as a number to write. No buffer of the port has more words than a u32 counts.
fn count_of(words: &[u32]) -> u32 {
    (words.len() % 4294967296) as u32
}

// The answer of a call: the buffer, and how much it holds that is not written out.
#[derive(Drop)]
pub struct Answer {
    out: [u8; ROOM],
    held: usize,
    ghost in_room: { held ≤ length out },
}

impl Answer {
    pub fn new() -> Answer {
        Answer {
            out: [0; ROOM],
            held: 0,
        }
    }

    // Writes out what the buffer holds.
    fn flush(&mut self, rt: &impl Print) -> io::Result<()>
        ensures { OnOk result (self.new.held ≡ 0) }
    {
        rt.write_all(&self.out[0..self.held])?;
        self.held = 0;
        Ok(())
    }

    // The same where it has no room for one more field.
    fn make_room(&mut self, rt: &impl Print) -> io::Result<()>
        ensures { OnOk result (self.new.held + SPARE ≤ ROOM) }
    {
        if ROOM - self.held < SPARE {
            self.flush(rt)?;
        }
        Ok(())
    }

    // Puts a number after what the buffer holds, and a space before it.
    pub fn number(&mut self, rt: &impl Print, n: u32) -> io::Result<()> {
        self.make_room(rt)?;
        let at = self.held;
        self.out[at] = b' ';
        self.held = put(&mut self.out, at + 1, n);
        Ok(())
    }

    // The number and the detail of an outcome, with which an answer begins: the first number of a line has no space before it.
    pub fn outcome(&mut self, rt: &impl Print, n: u32, detail: u32) -> io::Result<()> {
        self.held = put(&mut self.out, 0, n);
        self.number(rt, detail)
    }

    // Puts numbers one after another.
    pub fn numbers(&mut self, rt: &impl Print, part: &[u32]) -> io::Result<()> {
        for &n in part {
            self.number(rt, n)?;
        }
        Ok(())
    }

    // Puts the length and the words of a buffer.
    pub fn words(&mut self, rt: &impl Print, part: &[u32]) -> io::Result<()> {
        self.number(rt, count_of(part))?;
        self.numbers(rt, part)
    }

    // The same where the call has that buffer: one without room is none.
    pub fn words_if(&mut self, rt: &impl Print, room: usize, part: &[u32]) -> io::Result<()> {
        if room == 0 {
            return Ok(());
        }
        self.words(rt, part)
    }

    // Ends the line and writes it out.
    pub fn finish(&mut self, rt: &impl Print) -> io::Result<()> {
        self.make_room(rt)?;
        let at = self.held;
        self.out[at] = b'\n';
        rt.write_all(&self.out[0..at + 1])
    }
}
