// The session program: it reads standard input in chunks and writes what each is answered. What is held between two chunks, and what a chunk
// does and is answered, are the proved functions of `feeding`; this program reads, feeds and writes.
#![tactic(auto)]

ghost use Rattle.std.specs.Prelude.{◌≡◌, ◌≤◌, length, IfOk, OnErr};
ghost use Rattle.layout.specs.Calls.{index};
ghost use Rattle.dialogue.specs.Session.{state, start};
ghost use Rattle.feeding.specs.Feeding.{feed_of, held_by, Sound, Reached};

use feeding::Standing;
use layout::ENTRY_WORDS;
use std::io;
use std::io::{Read, Write};

// The words lent: a directory for m = 8, 256 originals, 3,328 replicas and 256 answers.
const DIRECTORY: usize = 2046;

const ORIGINALS: usize = ENTRY_WORDS * 256;

const REPLICAS: usize = ENTRY_WORDS * 3328;

const ANSWERS: usize = 256;

// How much is read at once.
const CHUNK: usize = 256;

// Each byte may end a line, and the longest answer has 2,848 bytes.
const OUT: usize = 729088;

// Reads once, and says how many bytes came.
fn read_some<R: Read>(reader: &mut R, input: &mut [u8; CHUNK]) -> io::Result<usize>
    ensures { IfOk result (λ n. (n ≤ length input.new) × (n ≤ CHUNK)) }
{
    reader.read(input)
}

// Writes the first bytes of what was answered.
fn write_front<W: Write>(writer: &mut W, out: &[u8], n: usize) -> io::Result<()>
    requires { n ≤ length out.now }
{
    writer.write_all(&out[0..n])
}

// A chunk is fed, and what it is answered is written. Where that fails, the chunk is fed all the same.
fn take_chunk<W: Write>(
    writer: &mut W,
    from: Standing,
    chunk: &[u8],
    directory: &mut [u32; DIRECTORY],
    originals: &mut [u32; ORIGINALS],
    replicas: &mut [u32; REPLICAS],
    answers: &mut [u32; ANSWERS],
    out: &mut [u8; OUT],
) -> io::Result<Standing>
    requires { Sound from × (length chunk.now ≤ CHUNK) }
    ensures ok { IfOk result (λ standing. Sound standing
        × (held_by standing (index directory.new originals.new replicas.new) answers.new
        ≡ (feed_of (held_by from (index directory.old originals.old replicas.old) answers.old)
        chunk.now).after)) }
    ensures err { OnErr result ((standing : Standing) × Sound standing
        × (held_by standing (index directory.new originals.new replicas.new) answers.new
        ≡ (feed_of (held_by from (index directory.old originals.old replicas.old) answers.old)
        chunk.now).after)) }
{
    let fed = feeding::feed(from, chunk, directory, originals, replicas, answers, out);
    write_front(writer, out, fed.written)?;
    Ok(fed.standing)
}

// The end of the input, and what a last line without its newline is answered.
fn take_end<W: Write>(
    writer: &mut W,
    standing: Standing,
    directory: &mut [u32; DIRECTORY],
    originals: &mut [u32; ORIGINALS],
    replicas: &mut [u32; REPLICAS],
    answers: &mut [u32; ANSWERS],
    out: &mut [u8; OUT],
) -> io::Result<()>
    requires { Sound standing }
{
    let fed = feeding::finish(standing, directory, originals, replicas, answers, out);
    write_front(writer, out, fed.written)
}

// Reads the input to its end, or to a line that ends the session. What is then held is what some input, fed from the start, leaves; so it is
// where a read or a write fails. A proved loop has to end, so it has a number of turns that no run uses up.
fn take_all<R: Read, W: Write>(
    reader: &mut R,
    writer: &mut W,
    directory: &mut [u32; DIRECTORY],
    originals: &mut [u32; ORIGINALS],
    replicas: &mut [u32; REPLICAS],
    answers: &mut [u32; ANSWERS],
    out: &mut [u8; OUT],
) -> io::Result<Standing>
    requires { state start.desk (index directory.old originals.old replicas.old) answers.old ≡ start }
    ensures ok { IfOk result (λ standing. Sound standing
        × Reached (held_by standing (index directory.new originals.new replicas.new) answers.new)) }
    ensures err { OnErr result ((standing : Standing) × Sound standing
        × Reached (held_by standing (index directory.new originals.new replicas.new) answers.new)) }
{
    let mut input = [0u8; CHUNK];
    let mut standing = feeding::begin();
    for _ in 0..u64::MAX {
        let got = read_some(reader, &mut input)?;
        if got == 0 {
            return Ok(standing);
        }
        standing = take_chunk(
            writer,
            standing,
            &input[0..got],
            directory,
            originals,
            replicas,
            answers,
            out,
        )?;
        if !feeding::goes_on(&standing) {
            return Ok(standing);
        }
    }
    Ok(standing)
}

fn main(rt: HostRuntime) -> io::Result<()> {
    let mut reader = rt.stdin();
    let mut writer = rt.stdout();
    let mut directory = [0u32; DIRECTORY];
    let mut originals = [0u32; ORIGINALS];
    let mut replicas = [0u32; REPLICAS];
    let mut answers = [0u32; ANSWERS];
    let mut out = [0u8; OUT];
    let standing = take_all(
        &mut reader,
        &mut writer,
        &mut directory,
        &mut originals,
        &mut replicas,
        &mut answers,
        &mut out,
    )?;
    take_end(
        &mut writer,
        standing,
        &mut directory,
        &mut originals,
        &mut replicas,
        &mut answers,
        &mut out,
    )
}
