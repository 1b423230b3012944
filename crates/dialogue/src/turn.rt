// A turn for each kind of line, and the turn of any line. The words lent stay apart: a turn lends some on for writing and some for reading.
ghost use Rattle.std.specs.Prelude.{◌≡◌, true, List, ℕ, ◌≤◌, length, IfSome};
ghost use Rattle.layout.specs.Words.{directory_length, Index};
ghost use Rattle.layout.specs.Calls.{index};
ghost use Rattle.text.specs.Command.{command_of};
ghost use Rattle.dialogue.specs.Reply.{short_reply};
ghost use Rattle.dialogue.specs.Session.{state, Done, bad_line, opened, added, removed, questioned, turn_of, turned, InSession, Room, RoomToAnswer};
ghost use Rattle.ruler.specs.Ruler.{deepest, bottom_of};

use crate::{Turned, reply};
use ruler::Numbers;
use store::counting::directory_length;
use store::words::Words;
use text::Command;
use trip::{Asking, Trip};

// The deepest level that a D line may name.
const DEEPEST_HERE: u32 = 8;

// The words of a directory for these numbers, whose deepest level a session may have.
fn directory_words(numbers: Numbers) -> usize
    requires { bottom_of numbers ≤ deepest }
    ensures { result ≡ directory_length (bottom_of numbers) }
{
    directory_length(numbers.bottom())
}

// A turn after which the next line is read.
fn goes_on(numbers: Numbers, written: usize) -> Turned
    ensures { result ≡ turned (Some numbers) written true }
{
    Turned {
        desk: Some(numbers),
        written,
        more: true,
    }
}

// A malformed line: nothing changes, and it is the last.
fn bad_turn(desk: Option<Numbers>, reply: &mut [u8]) -> Turned
    requires { short_reply ≤ length reply.old }
    ensures { (x : Index) (l : List ℕ) → Done (bad_line (state desk x l)) result x l reply.old reply.new }
{
    let written = reply::put_bad_line(reply);
    Turned {
        desk,
        written,
        more: false,
    }
}

// A D line: the index of an empty table.
fn open_turn(
    numbers: Numbers,
    directory: &mut [u32],
    originals: &mut [u32],
    replicas: &mut [u32],
    reply: &mut [u8],
) -> Turned
    requires { InSession numbers × Room directory.old reply.old }
    ensures { (l : List ℕ) → Done
        (opened (state None (index directory.old originals.old replicas.old) l) numbers) result
        (index directory.new originals.new replicas.new) l
        reply.old reply.new }
{
    let n = directory_words(numbers);
    let outcome = build::build(numbers, &[], &mut directory[0..n], originals, replicas);
    let written = reply::put_outcome(reply, outcome);
    let accepted = outcome.is_ok();
    Turned {
        desk: accepted.then_some(numbers),
        written,
        more: accepted,
    }
}

// A T line.
// A turn for each edit: one for both would take its call as a closure that changes words, of which a proof knows nothing.
fn add_turn(
    numbers: Numbers,
    t: Trip,
    directory: &mut [u32],
    originals: &mut [u32],
    replicas: &mut [u32],
    reply: &mut [u8],
) -> Turned
    requires { InSession numbers × Room directory.old reply.old }
    ensures { (l : List ℕ) → Done
        (added (state (Some numbers) (index directory.old originals.old replicas.old) l) numbers t) result
        (index directory.new originals.new replicas.new) l
        reply.old reply.new }
{
    let n = directory_words(numbers);
    let outcome = edit::add(numbers, &mut directory[0..n], originals, replicas, t);
    let written = reply::put_outcome(reply, outcome);
    goes_on(numbers, written)
}

// An X line.
fn remove_turn(
    numbers: Numbers,
    id: u32,
    directory: &mut [u32],
    originals: &mut [u32],
    replicas: &mut [u32],
    reply: &mut [u8],
) -> Turned
    requires { InSession numbers × Room directory.old reply.old }
    ensures { (l : List ℕ) → Done
        (removed (state (Some numbers) (index directory.old originals.old replicas.old) l) numbers id) result
        (index directory.new originals.new replicas.new) l
        reply.old reply.new }
{
    let n = directory_words(numbers);
    let outcome = edit::remove(numbers, &mut directory[0..n], originals, replicas, id);
    let written = reply::put_outcome(reply, outcome);
    goes_on(numbers, written)
}

// A Q line.
fn ask_turn<'a>(
    numbers: Numbers,
    asking: Asking,
    directory: &[u32],
    originals: &'a [u32],
    replicas: &'a [u32],
    answers: &mut [u32],
    reply: &mut [u8],
) -> Turned
    requires { InSession numbers × RoomToAnswer directory.now answers.old reply.old }
    ensures { Done
        (questioned (state (Some numbers) (index directory.now originals.now replicas.now) answers.old) numbers
        asking) result
        (index directory.now originals.now replicas.now) answers.new
        reply.old reply.new }
{
    let n = directory_words(numbers);
    let words = Words {
        directory: &directory[0..n],
        originals,
        replicas,
    };
    let answer = ask::ask(numbers, words, asking, answers);
    let written = reply::put_answer(reply, answer, answers);
    goes_on(numbers, written)
}

// The turn of a line, given without its newline. Only the first line may be a D line, whose level is not too deep, and only after it
// come the others.
pub fn turn(
    desk: Option<Numbers>,
    line: &[u8],
    directory: &mut [u32],
    originals: &mut [u32],
    replicas: &mut [u32],
    answers: &mut [u32],
    reply: &mut [u8],
) -> Turned
    requires { IfSome desk InSession × RoomToAnswer directory.old answers.old reply.old }
    ensures { Done
        (turn_of (state desk (index directory.old originals.old replicas.old) answers.old)
        (command_of line.now)) result
        (index directory.new originals.new replicas.new) answers.new
        reply.old reply.new }
{
    let Some(command) = text::command_of(line) else {
        return bad_turn(desk, reply);
    };
    match (command, desk) {
        (Command::Ruler { w, m }, None) if m <= DEEPEST_HERE => {
            let numbers = Numbers::Bits { w, m };
            open_turn(numbers, directory, originals, replicas, reply)
        }
        (
            Command::Add {
                id,
                start,
                end,
                days,
            },
            Some(numbers),
        ) => {
            let t = Trip::of(id, start, end, days);
            add_turn(numbers, t, directory, originals, replicas, reply)
        }
        (Command::Remove { id }, Some(numbers)) => {
            remove_turn(numbers, id, directory, originals, replicas, reply)
        }
        (
            Command::Ask {
                code,
                start,
                end,
                day,
            },
            Some(numbers),
        ) => {
            let asking = Asking::of(code, start, end, day);
            ask_turn(
                numbers, asking, directory, originals, replicas, answers, reply,
            )
        }
        _ => bad_turn(desk, reply),
    }
}
