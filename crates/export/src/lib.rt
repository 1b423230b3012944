// What other languages call: one function for each public entry, over numbers and slices. Each takes the entry's outcome apart into the
// numbers of document 01, and does nothing else. A ruler is one value for all of them; two functions make it. `export_c` hands each of them to C.
#![tactic(auto)]

ghost use Rattle.std.specs.Prelude.{◌≡◌, length};
ghost use Rattle.layout.specs.Calls.{index};
ghost use Rattle.export.specs.Said.{bits_named, spread_named, numbers_named};
ghost use Rattle.export.specs.Said.{said_of, left, told, build_said, add_said, remove_said, check_said, ask_said, counted, census_said, arena_of, run_said};

use layout::Rejection;
use ruler::Numbers;
use store::words::Words;
use trip::{Asking, Trip};
use view::{LEVELS, SUBDIVISIONS};

// A ruler as C holds it: its kind, m, and the other numbers of that kind: w, or lo and hi. Four words, so that a call takes them in two
// registers. C may write anything into them: what they name is judged by each call.
#[repr(C)]
#[derive(Clone, Copy)]
pub struct NamedRuler {
    pub kind: u32,
    pub m: u32,
    pub first: u32,
    pub second: u32,
}

// The kinds.
const BITS: u32 = 0;

const SPREAD: u32 = 1;

// Stands in a word that a kind has no number for.
const UNUSED: u32 = 0;

// The width that no ruler has.
const NO_WIDTH: u32 = 0;

// The number of a call that is not refused.
const ACCEPTED: u32 = 0;

// The number of refusal, or 0, and its detail.
#[repr(C)]
#[derive(Clone, Copy)]
pub struct Said {
    pub number: u32,
    pub detail: u32,
}

// The same, with the count of ids.
#[repr(C)]
#[derive(Clone, Copy)]
pub struct Told {
    pub number: u32,
    pub detail: u32,
    pub count: u32,
}

// A part of one of the arenas: which arena, the word at which it begins, and its words.
#[repr(C)]
#[derive(Clone, Copy)]
pub struct Shown {
    pub number: u32,
    pub arena: u32,
    pub offset: u32,
    pub length: u32,
}

// The first subdivision whose runs are parts of the replicas.
const FIRST_OF_REPLICAS: u32 = 2;

// The arena of a run: 0 the originals, 1 the replicas.
#[tactic(auto, unfolding(crate::specs::Said::arena_of))]
fn arena_of(subdivision: u32) -> u32
    ensures { result ≡ arena_of subdivision }
{
    if subdivision < FIRST_OF_REPLICAS {
        return 0;
    }
    1
}

// The numbers that a ruler of C names. Another kind names a width that no ruler has, so every call refuses it with 1.
impl From<NamedRuler> for Numbers {
    ghost from_gives = { λ r n. n ≡ numbers_named r };

    fn from(ruler: NamedRuler) -> Numbers {
        let m = ruler.m;
        if ruler.kind == BITS {
            return Numbers::Bits { w: ruler.first, m };
        }
        if ruler.kind == SPREAD {
            return Numbers::Spread {
                m,
                lo: ruler.first,
                hi: ruler.second,
            };
        }
        Numbers::Bits { w: NO_WIDTH, m }
    }
}

// What a call answers in the numbers of document 01.
impl From<Result<(), Rejection>> for Said {
    ghost from_gives = { λ o said. said ≡ said_of o };

    fn from(outcome: Result<(), Rejection>) -> Said {
        Said {
            number: layout::number_of(outcome),
            detail: layout::detail_of(outcome),
        }
    }
}

// The ruler of the times 0 to 2^w - 1.
pub fn kheyambo_bits(w: u32, m: u32) -> NamedRuler
    ensures { result ≡ bits_named w m }
{
    NamedRuler {
        kind: BITS,
        m,
        first: w,
        second: UNUSED,
    }
}

// The ruler that is spread over the times lo to hi.
pub fn kheyambo_spread(m: u32, lo: u32, hi: u32) -> NamedRuler
    ensures { result ≡ spread_named m lo hi }
{
    NamedRuler {
        kind: SPREAD,
        m,
        first: lo,
        second: hi,
    }
}

pub fn kheyambo_build(
    ruler: NamedRuler,
    table: &[u32],
    directory: &mut [u32],
    originals: &mut [u32],
    replicas: &mut [u32],
) -> Said
    ensures { left result (index directory.new originals.new replicas.new)
        ≡ build_said (numbers_named ruler) table.now (index directory.old originals.old replicas.old) }
{
    Said::from(build::build(Numbers::from(ruler), table, directory, originals, replicas))
}

pub fn kheyambo_check(
    ruler: NamedRuler,
    directory: &[u32],
    originals: &[u32],
    replicas: &[u32],
) -> Said
    ensures { result ≡ check_said (numbers_named ruler) (index directory.now originals.now replicas.now) }
{
    let words = Words {
        directory,
        originals,
        replicas,
    };
    Said::from(verify::check(Numbers::from(ruler), words))
}

pub fn kheyambo_add(
    ruler: NamedRuler,
    id: u32,
    start: u32,
    end: u32,
    days: u32,
    directory: &mut [u32],
    originals: &mut [u32],
    replicas: &mut [u32],
) -> Said
    ensures { left result (index directory.new originals.new replicas.new)
        ≡ add_said (numbers_named ruler) id start end days (index directory.old originals.old replicas.old) }
{
    let t = Trip::of(id, start, end, days);
    Said::from(edit::add(Numbers::from(ruler), directory, originals, replicas, t))
}

pub fn kheyambo_remove(
    ruler: NamedRuler,
    id: u32,
    directory: &mut [u32],
    originals: &mut [u32],
    replicas: &mut [u32],
) -> Said
    ensures { left result (index directory.new originals.new replicas.new)
        ≡ remove_said (numbers_named ruler) id (index directory.old originals.old replicas.old) }
{
    Said::from(edit::remove(Numbers::from(ruler), directory, originals, replicas, id))
}

pub fn kheyambo_ask<'a>(
    ruler: NamedRuler,
    code: u32,
    start: u32,
    end: u32,
    day: u32,
    directory: &[u32],
    originals: &'a [u32],
    replicas: &'a [u32],
    answers: &mut [u32],
) -> Told
    ensures { told result answers.new
        ≡ ask_said (numbers_named ruler) code start end day (index directory.now originals.now replicas.now) answers.old }
{
    let asking = Asking::of(code, start, end, day);
    let words = Words {
        directory,
        originals,
        replicas,
    };
    let answer = ask::ask(Numbers::from(ruler), words, asking, answers);
    let said = Said::from(ask::outcome_of(answer));
    Told {
        number: said.number,
        detail: said.detail,
        count: ask::count_of(answer),
    }
}

// The counts of the census, row after row, into a lent array.
pub fn kheyambo_census(
    ruler: NamedRuler,
    directory: &[u32],
    originals: &[u32],
    replicas: &[u32],
    counts: &mut [[u32; SUBDIVISIONS]; LEVELS],
) -> Said
    ensures { counted result counts.new
        ≡ census_said (numbers_named ruler) (index directory.now originals.now replicas.now) }
{
    let words = Words {
        directory,
        originals,
        replicas,
    };
    let opened = verify::open(Numbers::from(ruler), words);
    let rows = view::rows_opened(opened, directory);
    *counts = rows;
    Said::from(verify::outcome_of(opened))
}

// A run: where it stands in the arenas, and nothing copied.
pub fn kheyambo_run<'a>(
    ruler: NamedRuler,
    level: u32,
    partition: u32,
    subdivision: u32,
    directory: &[u32],
    originals: &'a [u32],
    replicas: &'a [u32],
) -> Shown
    ensures { result ≡ run_said (numbers_named ruler) level partition subdivision (index directory.now originals.now replicas.now) }
{
    let words = Words {
        directory,
        originals,
        replicas,
    };
    match view::run_place(Numbers::from(ruler), words, level, partition, subdivision) {
        Ok(place) => Shown {
            number: ACCEPTED,
            arena: arena_of(subdivision),
            offset: place.from as u32,
            length: place.length as u32,
        },
        Err(rejection) => Shown {
            number: u32::from(rejection.refusal),
            arena: 0,
            offset: 0,
            length: 0,
        },
    }
}
