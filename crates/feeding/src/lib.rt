// The input as it comes, in chunks that end anywhere: what is held between two of them, and the turns of the lines that end in one.
#![tactic(auto)]

ghost use Rattle.std.specs.Prelude.{◌≡◌, true, List, [], ℕ, length};
ghost use Rattle.layout.specs.Words.{Index};
ghost use Rattle.layout.specs.Calls.{index};
ghost use Rattle.dialogue.specs.Session.{state, start};
ghost use Rattle.feeding.specs.Feeding.{held, line_done, leaving, byte_kept, byte_of, feed_of, end_of, held_by, Sound, Ready, Left};

use dialogue::turn;
use line::Line;
use ruler::Numbers;

mod line;

// The byte between lines.
const NEWLINE: u8 = b'\n';

// The longest answer: a count and 256 ids.
const REPLY: usize = 2848;

// Where the session stands between two bytes of the input: its ruler, what is kept of a line that has not ended, and whether it goes on. Its
// fields are private, so what is held cannot be lost between two chunks. What each
// promises of its ruler stays a clause, `Sound`, which the law of the first byte names.
#[derive(Clone, Copy)]
pub struct Standing {
    desk: Option<Numbers>,
    line: Line,
    more: bool,
}

// What some of the input leaves: where the session stands after it, and how many bytes were written.
#[derive(Clone, Copy)]
pub struct Fed {
    pub standing: Standing,
    pub written: usize,
}

// Before the first byte.
pub fn begin() -> Standing
    ensures { Sound result × ((x : Index) (l : List ℕ) → held_by result x l ≡ held (state start.desk x l) [] true) }
{
    Standing {
        desk: None,
        line: Line::new(),
        more: true,
    }
}

// Whether the next byte is read.
pub fn goes_on(standing: &Standing) -> bool
    ensures { result ≡ standing.now.more }
{
    standing.more
}

// Nothing is written.
fn silent(standing: Standing) -> Fed
    requires { Sound standing }
    ensures { (x : Index) (l out : List ℕ) → Left (leaving (held_by standing x l) []) result x l out out }
{
    Fed {
        standing,
        written: 0,
    }
}

// A line has ended: it has its turn, and the next begins.
fn line_done(
    standing: Standing,
    directory: &mut [u32],
    originals: &mut [u32],
    replicas: &mut [u32],
    answers: &mut [u32],
    out: &mut [u8],
) -> Fed
    requires { Sound standing × Ready 1 directory.old answers.old out.old }
    ensures { Left
        (line_done (held_by standing (index directory.old originals.old replicas.old) answers.old)) result
        (index directory.new originals.new replicas.new) answers.new
        out.old out.new }
{
    let turned = turn::turn(
        standing.desk,
        standing.line.bytes(),
        directory,
        originals,
        replicas,
        answers,
        out,
    );
    Fed {
        standing: Standing {
            desk: turned.desk,
            line: Line::new(),
            more: turned.more,
        },
        written: turned.written,
    }
}

// A byte of a line that goes on.
fn keep_byte(standing: Standing, byte: u8) -> Standing
    requires { Sound standing }
    ensures { Sound result × ((x : Index) (l : List ℕ) → held_by result x l ≡ (byte_kept (held_by standing x l) byte).after) }
{
    let mut kept = standing;
    kept.line.push(byte);
    kept
}

// A byte of the input: it ends a line, or the line goes on. After the line that ended the session it does nothing.
fn take_byte(
    standing: Standing,
    byte: u8,
    directory: &mut [u32],
    originals: &mut [u32],
    replicas: &mut [u32],
    answers: &mut [u32],
    out: &mut [u8],
) -> Fed
    requires { Sound standing × Ready 1 directory.old answers.old out.old }
    ensures { Left
        (byte_of (held_by standing (index directory.old originals.old replicas.old) answers.old) byte) result
        (index directory.new originals.new replicas.new) answers.new
        out.old out.new }
{
    if !standing.more {
        return silent(standing);
    }
    if byte == NEWLINE {
        return line_done(standing, directory, originals, replicas, answers, out);
    }
    silent(keep_byte(standing, byte))
}

// A chunk of the input, byte by byte. What is written for it stands at the front of `out`, which has room for a line to each byte.
pub fn feed(
    from: Standing,
    chunk: &[u8],
    directory: &mut [u32],
    originals: &mut [u32],
    replicas: &mut [u32],
    answers: &mut [u32],
    out: &mut [u8],
) -> Fed
    requires { Sound from × Ready (length chunk.now) directory.old answers.old out.old }
    ensures { Left
        (feed_of (held_by from (index directory.old originals.old replicas.old) answers.old)
        chunk.now) result
        (index directory.new originals.new replicas.new) answers.new
        out.old out.new }
{
    let mut standing = from;
    let mut to: usize = 0;
    for &byte in chunk {
        let end = to + REPLY;
        let fed = take_byte(
            standing,
            byte,
            directory,
            originals,
            replicas,
            answers,
            &mut out[to..end],
        );
        standing = fed.standing;
        to += fed.written;
    }
    Fed {
        standing,
        written: to,
    }
}

// The end of the input: the last line may lack its newline.
pub fn finish(
    standing: Standing,
    directory: &mut [u32],
    originals: &mut [u32],
    replicas: &mut [u32],
    answers: &mut [u32],
    out: &mut [u8],
) -> Fed
    requires { Sound standing × Ready 1 directory.old answers.old out.old }
    ensures { Left
        (end_of (held_by standing (index directory.old originals.old replicas.old) answers.old)) result
        (index directory.new originals.new replicas.new) answers.new
        out.old out.new }
{
    if standing.more && !standing.line.is_empty() {
        return line_done(standing, directory, originals, replicas, answers, out);
    }
    silent(standing)
}
