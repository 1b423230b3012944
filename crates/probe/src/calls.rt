// The calls themselves: each takes its numbers and buffers and says its outcome, and the count where it gives one. The answer is then
// written by the row.
ghost use Rattle.std.specs.Prelude.{◌≤◌, length};

use crate::print::Answer;
use crate::rows::{Buffers, Call, Gives, Row};
use crate::scan;
use crate::scan::Named;
use layout::Rejection;
use std::io;
use store::words::Words;
use trip::{Asking, Trip};

// What a call says: its count, or why it is refused.
type Said = Result<u32, Rejection>;

// The count of a call that gives none, which is not written.
const NO_COUNT: u32 = 0;

fn build_said(
    n: Named,
    table: &[u32],
    directory: &mut [u32],
    originals: &mut [u32],
    replicas: &mut [u32],
) -> Said {
    build::build(n.ruler, table, directory, originals, replicas)?;
    Ok(NO_COUNT)
}

fn check_said(n: Named, words: Words) -> Said {
    verify::check(n.ruler, words)?;
    Ok(NO_COUNT)
}

fn add_said(n: Named, directory: &mut [u32], originals: &mut [u32], replicas: &mut [u32]) -> Said {
    let t = Trip::of(n.first, n.second, n.third, n.fourth);
    edit::add(n.ruler, directory, originals, replicas, t)?;
    Ok(NO_COUNT)
}

fn remove_said(
    n: Named,
    directory: &mut [u32],
    originals: &mut [u32],
    replicas: &mut [u32],
) -> Said {
    edit::remove(n.ruler, directory, originals, replicas, n.first)?;
    Ok(NO_COUNT)
}

fn ask_said(n: Named, words: Words, answers: &mut [u32]) -> Said {
    let asking = Asking::of(n.first, n.second, n.third, n.fourth);
    ask::ask(n.ruler, words, asking, answers)
}

fn run_said(n: Named, words: Words) -> Said {
    view::run_outcome(n.ruler, words, n.first, n.second, n.third)?;
    Ok(NO_COUNT)
}

fn census_said(n: Named, words: Words) -> Said {
    view::census_outcome(n.ruler, words)?;
    Ok(NO_COUNT)
}

// The call of a row. A row names its call: the calls take different buffers, so no one type of function fits. What a build reads,
// its table, stands where the others read the directory.
fn called(
    call: Call,
    n: Named,
    words: Words,
    first: &mut [u32],
    second: &mut [u32],
    third: &mut [u32],
) -> Said {
    match call {
        Call::Build => build_said(n, words.directory, first, second, third),
        Call::Check => check_said(n, words),
        Call::Add => add_said(n, first, second, third),
        Call::Remove => remove_said(n, first, second, third),
        Call::Ask => ask_said(n, words, first),
        Call::Run => run_said(n, words),
        Call::Census => census_said(n, words),
    }
}

// The run that a call shows.
fn put_run(rt: &impl Print, answer: &mut Answer, n: Named, words: Words) -> io::Result<()> {
    let ruler = n.ruler;
    let part = view::run(
        ruler,
        words.directory,
        words.originals,
        words.replicas,
        n.first,
        n.second,
        n.third,
    );
    answer.words(rt, part)
}

// The counts of all levels, one after another.
fn put_census(rt: &impl Print, answer: &mut Answer, n: Named, words: Words) -> io::Result<()> {
    let levels = view::census(n.ruler, words);
    for counts in &levels {
        answer.numbers(rt, counts)?;
    }
    Ok(())
}

// The outcome, and what the row gives after it.
fn put_said(
    rt: &impl Print,
    answer: &mut Answer,
    said: Said,
    gives: Gives,
    n: Named,
    words: Words,
) -> io::Result<()> {
    let outcome = ask::outcome_of(said);
    answer.outcome(rt, layout::number_of(outcome), layout::detail_of(outcome))?;
    match gives {
        Gives::Nothing => Ok(()),
        Gives::Count => answer.number(rt, ask::count_of(said)),
        Gives::Run => put_run(rt, answer, n, words),
        Gives::Census => put_census(rt, answer, n, words),
    }
}

// Writes the answer of a call: what it said, what its row gives, and the buffers that it may write.
fn put_answer(
    rt: &impl Print,
    row: Row,
    said: Said,
    n: Named,
    words: Words,
    first: &[u32],
    second: &[u32],
    third: &[u32],
) -> io::Result<()> {
    let mut answer = Answer::new();
    put_said(rt, &mut answer, said, row.gives, n, words)?;
    answer.words_if(rt, row.writes.first, first)?;
    answer.words_if(rt, row.writes.second, second)?;
    answer.words_if(rt, row.writes.third, third)?;
    answer.finish(rt)
}

// Makes the call and writes its answer. The buffers that it only reads are `words`, in the order of the line.
fn make_on(
    rt: &impl Print,
    row: Row,
    n: Named,
    ends: Buffers,
    read: &[u32],
    first: &mut [u32],
    second: &mut [u32],
    third: &mut [u32],
) -> io::Result<()> {
    let call = row.call;
    let words = Words {
        directory: scan::part(read, 0, ends.first),
        originals: scan::part(read, ends.first, ends.second),
        replicas: scan::part(read, ends.second, ends.third),
    };
    let said = called(call, n, words, first, second, third);
    put_answer(rt, row, said, n, words, first, second, third)
}

// The same with the words lent, of which the buffers are the first.
pub fn make(
    rt: &impl Print,
    row: Row,
    n: Named,
    reads: Buffers,
    writes: Buffers,
    read: &[u32],
    first: &mut [u32],
    second: &mut [u32],
    third: &mut [u32],
) -> io::Result<()>
    requires first_in_bounds { writes.first ≤ length first.old }
    requires second_in_bounds { writes.second ≤ length second.old }
    requires third_in_bounds { writes.third ≤ length third.old }
{
    let x = writes.first;
    let y = writes.second;
    let z = writes.third;
    make_on(
        rt,
        row,
        n,
        reads,
        read,
        &mut first[0..x],
        &mut second[0..y],
        &mut third[0..z],
    )
}
