// The bytes that the session writes: words and numbers put into a reply one after another.
ghost use Rattle.std.specs.Prelude.{◌+◌, ◌*◌, ◌^◌, ◌≤◌, ◌<◌, length, take};
ghost use Rattle.text.specs.Decimal.{decimal};
ghost use Rattle.ask.specs.Told.{outcome_told, count_told};
ghost use Rattle.dialogue.specs.Reply.{most_digits, short_reply, id_bytes, outcome_bytes, list_bytes, answer_bytes, bad_line_bytes, PutAt, Wrote};

use layout::Rejection;
use text::MOST_DIGITS;

// Puts bytes into the reply at a place, and says where the next go. A writer would say the same at each call: the place is all that it would hold.
pub fn put(reply: &mut [u8], at: usize, bytes: &[u8]) -> usize
    requires { at + length bytes.now ≤ length reply.old }
    ensures { PutAt at bytes.now reply.old reply.new result }
{
    let end = at + bytes.len();
    reply[at..end].copy_from_slice(bytes);
    end
}

// Puts a number into the reply.
pub fn put_number(reply: &mut [u8], at: usize, n: u32) -> usize
    requires { at + most_digits ≤ length reply.old }
    ensures { PutAt at (decimal n) reply.old reply.new result }
{
    at + text::write_number(n, &mut reply[at..])
}

// Puts each id into the reply, after a space.
fn put_ids(reply: &mut [u8], at: usize, ids: &[u32]) -> usize
    requires { at + (most_digits + 1) * length ids.now ≤ length reply.old }
    ensures { (result ≤ at + (most_digits + 1) * length ids.now)
        × PutAt at (id_bytes ids.now) reply.old reply.new result }
{
    let mut to = at;
    for id in ids {
        reply[to] = b' ';
        to = put_number(reply, to + 1, *id);
    }
    to
}

// The line for an outcome.
pub fn put_outcome(reply: &mut [u8], outcome: Result<(), Rejection>) -> usize
    requires { short_reply ≤ length reply.old }
    ensures { Wrote (outcome_bytes outcome) reply.old reply.new result }
{
    match outcome {
        Ok(()) => put(reply, 0, b"ok\n"),
        Err(rejection) => {
            let word = put(reply, 0, b"refused ");
            let number = put_number(reply, word, u32::from(rejection.refusal));
            put(reply, number, b"\n")
        }
    }
}

// The line for the ids of an accepted question.
fn put_list(reply: &mut [u8], ids: &[u32]) -> usize
    requires { (short_reply + (most_digits + 1) * length ids.now ≤ length reply.old) × (length ids.now < 2 ^ 32) }
    ensures { Wrote (list_bytes ids.now) reply.old reply.new result }
{
    let count = put_number(reply, 0, ids.len() as u32);
    let list = put_ids(reply, count, ids);
    put(reply, list, b"\n")
}

// The line for a question: its ids, which are the first of the answer list, or the refusal.
pub fn put_answer(reply: &mut [u8], answer: Result<u32, Rejection>, list: &[u32]) -> usize
    requires listed { count_told answer ≤ length list.now }
    requires room { (short_reply + (most_digits + 1) * count_told answer ≤ length reply.old) × (count_told answer < 2 ^ 32) }
    ensures { Wrote (answer_bytes (outcome_told answer) (take (count_told answer) list.now)) reply.old reply.new result }
{
    match answer {
        Ok(count) => put_list(reply, &list[..count as usize]),
        Err(rejection) => put_outcome(reply, Err(rejection)),
    }
}

// The line for a malformed line.
pub fn put_bad_line(reply: &mut [u8]) -> usize
    requires { short_reply ≤ length reply.old }
    ensures { Wrote bad_line_bytes reply.old reply.new result }
{
    put(reply, 0, b"bad line\n")
}
