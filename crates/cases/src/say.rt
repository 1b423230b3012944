// What a case writes, comparing what it got, and rulers by their numbers. The sizes of the lists are those of the case.
use layout::Rejection;
use ruler::Numbers;
use std::io;
use store::words::Words;
use trip::{Asking, Trip};
use view::{LEVELS, SUBDIVISIONS};

// The days of a trip that runs on all of them.
pub const EVERY_DAY: u32 = 4294967295;

// One case: whether it is right, and its name.
pub fn case(rt: &impl Print, right: bool, name: &[u8]) -> io::Result<()> {
    if right {
        rt.write_all(b"ok ")?;
    } else {
        rt.write_all(b"WRONG ")?;
    }
    rt.write_all(name)?;
    rt.write_all(b"\n")
}

// Whether an outcome is this number with this detail.
pub fn is(outcome: Result<(), Rejection>, number: u32, detail: u32) -> bool {
    layout::number_of(outcome) == number && layout::detail_of(outcome) == detail
}

// Whether a build of the table, in lists of as many words, gives these words.
pub fn built<const D: usize, const O: usize, const R: usize>(
    ruler: Numbers,
    table: &[u32],
    directory: &[u32; D],
    originals: &[u32; O],
    replicas: &[u32; R],
) -> bool {
    let mut d = [9u32; D];
    let mut o = [9u32; O];
    let mut r = [9u32; R];
    let outcome = build::build(ruler, table, &mut d, &mut o, &mut r);
    is(outcome, 0, 0) && d == *directory && o == *originals && r == *replicas
}

// Whether a build is refused and leaves these words. There is no replica's room: 7 would come where another number didn't.
pub fn unbuilt<const D: usize, const O: usize>(
    ruler: Numbers,
    table: &[u32],
    directory: &[u32; D],
    originals: &[u32; O],
    number: u32,
    detail: u32,
) -> bool {
    let mut d = *directory;
    let mut o = *originals;
    let outcome = build::build(ruler, table, &mut d, &mut o, &mut []);
    is(outcome, number, detail) && d == *directory && o == *originals
}

// Whether an addition gets this number, and the words are then those of a build of the table.
pub fn adds<const D: usize, const O: usize, const R: usize>(
    ruler: Numbers,
    d: &mut [u32; D],
    o: &mut [u32; O],
    r: &mut [u32; R],
    t: Trip,
    number: u32,
    table: &[u32],
) -> bool {
    let outcome = edit::add(ruler, d, o, r, t);
    is(outcome, number, 0) & built(ruler, table, d, o, r)
}

// Whether a trip goes, and the words are then those of a build of the table.
pub fn goes<const D: usize, const O: usize, const R: usize>(
    ruler: Numbers,
    d: &mut [u32; D],
    o: &mut [u32; O],
    r: &mut [u32; R],
    id: u32,
    table: &[u32],
) -> bool {
    let outcome = edit::remove(ruler, d, o, r, id);
    is(outcome, 0, 0) & built(ruler, table, d, o, r)
}

// Whether so many trips answer a question, and the list, whose words were `old`, is then this one.
pub fn lists<const N: usize>(
    ruler: Numbers,
    words: Words,
    asking: Asking,
    old: u32,
    count: u32,
    list: &[u32; N],
) -> bool {
    let mut answers = [old; N];
    let answered = ask::ask(ruler, words, asking, &mut answers);
    answered == Ok(count) && answers == *list
}

// Whether a question is refused with this number and this detail, and leaves this list.
pub fn unasked<const N: usize>(
    ruler: Numbers,
    words: Words,
    asking: Asking,
    list: &[u32; N],
    number: u32,
    detail: u32,
) -> bool {
    let mut answers = *list;
    match ask::ask(ruler, words, asking, &mut answers) {
        Ok(_) => false,
        Err(rejection) => is(Err(rejection), number, detail) && answers == *list,
    }
}

// Whether the census of the words is this one.
pub fn counts(ruler: Numbers, words: Words, right: [[u32; SUBDIVISIONS]; LEVELS]) -> bool {
    let outcome = view::census_outcome(ruler, words);
    let rows = view::census(ruler, words);
    is(outcome, 0, 0) && rows == right
}

// The case that the check of the words answers this number.
pub fn checked(
    rt: &impl Print,
    ruler: Numbers,
    words: Words,
    number: u32,
    name: &[u8],
) -> io::Result<()> {
    let outcome = verify::check(ruler, words);
    case(rt, is(outcome, number, 0), name)
}

// Words that are lent to be read.
pub fn words<'a>(directory: &'a [u32], originals: &'a [u32], replicas: &'a [u32]) -> Words<'a> {
    Words {
        directory,
        originals,
        replicas,
    }
}

// A ruler of the first kind, and one of the second.
pub fn ruler(w: u32, m: u32) -> Numbers {
    Numbers::Bits { w, m }
}

pub fn spread(m: u32, lo: u32, hi: u32) -> Numbers {
    Numbers::Spread { m, lo, hi }
}
