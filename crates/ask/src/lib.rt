// Questions on the words of an index: the ids of the trips to which a window stands in a named relationship.
#![tactic(auto)]

mod judge;

ghost use Rattle.std.specs.Prelude.{◌≡◌, true, ◌≤◌, length};
ghost use Rattle.ruler.specs.Ruler.{most_trips, scale_of};
ghost use Rattle.ruler.specs.Made.{scale};
ghost use Rattle.trip.specs.Trips.{last_day};
ghost use Rattle.layout.specs.Answers.{answer};
ghost use Rattle.layout.specs.Refusals.{OnRuler, table_of, is_index, room_test};
ghost use Rattle.layout.specs.Calls.{index, ask_of};
ghost use Rattle.store.specs.WordsLent.{index_of};
ghost use Rattle.walk.specs.Seen.{LevelsSeen, levels_seen};
ghost use Rattle.ask.specs.Told.{outcome_told, count_told, asked_by};
ghost use Rattle.ask.specs.Chain.{listed_of, answer_of};

use crate::judge::judge;
use layout::{Refusal, Rejection};
use plan::range::{Plan, plan_for};
use plan::sought::{Sought, sought_by};
use ruler::{Numbers, Ruler};
use store::half::trips_of;
use store::words::Words;
use trip::{Asking, Question};
use verify::open;
use walk::count::count_levels;
use walk::list::list_levels;

// Whether the matches have room in an answer list. They are counted only where the index has more trips than the list has words.
fn room_for(
    sought: Sought,
    plan: Plan,
    words: Words,
    trips: usize,
    room: usize,
) -> Result<(), Rejection>
    requires levels_there { LevelsSeen words plan }
    requires few_matches { (length (levels_seen sought words plan) ≤ trips) × (trips ≤ most_trips) }
    ensures { result ≡ room_test (length (levels_seen sought words.entry plan)) room }
{
    if trips <= room {
        return Ok(());
    }
    let count = count_levels(sought, plan, words);
    if room < count {
        return Err(Refusal::NoRoom.with_detail(count as u32));
    }
    Ok(())
}

// The answer to a question that was judged.
fn listed(
    ruler: Ruler,
    words: Words,
    question: Question,
    answers: &mut [u32],
) -> Result<u32, Rejection>
    requires indexed { is_index (scale ruler) (index_of words) ≡ true }
    requires on_ruler { OnRuler (scale ruler) question.window.start question.window.end × (question.day ≤ last_day) }
    ensures { asked_by result answers.new ≡ listed_of (answer question (table_of (scale ruler) (index_of words.entry))) answers.old }
{
    let sought = sought_by(question);
    let plan = plan_for(ruler, question.relationship, question.window);
    let trips = trips_of(ruler.bottom(), words.directory);
    room_for(sought, plan, words, trips, answers.len())?;
    let count = list_levels(sought, plan, words, answers);
    lists::sort_ids(&mut answers[0..count]);
    Ok(count as u32)
}

// The answer to a question on an index, as it is put. Not inlined: what it needs of the stack is free again, or not yet taken, while the index is checked.
#[inline(never)]
fn answer_to(
    ruler: Ruler,
    words: Words,
    asking: Asking,
    answers: &mut [u32],
) -> Result<u32, Rejection>
    requires { is_index (scale ruler) (index_of words) ≡ true }
    ensures { asked_by result answers.new ≡ answer_of (scale ruler) (table_of (scale ruler) (index_of words.entry)) asking answers.old }
{
    let question = judge(ruler, asking)?;
    listed(ruler, words, question, answers)
}

// A question on any words, after the tests of the ruler, the directory and the index. The ids of the matches go into the answer list's first
// words, in ascending order.
pub fn ask(
    numbers: Numbers,
    words: Words,
    asking: Asking,
    answers: &mut [u32],
) -> Result<u32, Rejection>
    ensures { asked_by result answers.new ≡ ask_of (scale_of numbers)
        (index words.entry.directory.now words.entry.originals.now words.entry.replicas.now) asking answers.old }
{
    let ruler = open(numbers, words)?;
    answer_to(ruler, words, asking, answers)
}

// The outcome of a question: a refusal keeps its detail.
pub fn outcome_of(answer: Result<u32, Rejection>) -> Result<(), Rejection>
    ensures { result ≡ outcome_told answer }
{
    match answer {
        Ok(_) => Ok(()),
        Err(rejection) => Err(rejection),
    }
}

// And its count: "any count that a refused call gives is 0".
pub fn count_of(answer: Result<u32, Rejection>) -> u32
    ensures { result ≡ count_told answer }
{
    match answer {
        Ok(count) => count,
        Err(_) => 0,
    }
}
