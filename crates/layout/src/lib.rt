// What the index is: its halves and subdivisions, the words of an entry, and what a call may answer.
#![tactic(auto)]

pub mod directory;

ghost use Rattle.std.specs.Prelude.{◌≡◌, true};
ghost use Rattle.ruler.specs.Made.{scale};
ghost use Rattle.layout.specs.Stored.{subdivision_of};
ghost use Rattle.layout.specs.Words.{entry_words};
ghost use Rattle.layout.specs.Outcomes.{Accepted, rejection};
ghost use Rattle.layout.specs.Refusals.{refusal_number, number_of, detail_of, time_tests, row_tests_by, window_tests};

use ruler::{Ruler, Time};
use trip::{LAST_DAY, Trip, Window};

// A directory half with its arena.
#[derive(Clone, Copy)]
pub enum Half {
    Originals,
    Replicas,
}

#[derive(Clone, Copy)]
pub enum Subdivision {
    OIn,
    OAft,
    RIn,
    RAft,
}

// Why a call is refused, in the order of the paper's numbers: 1 to 10, 12, 16 and 17.
#[derive(Clone, Copy, Debug, PartialEq, Eq)]
pub enum Refusal {
    RulerOutOfBounds,
    TableSize,
    DirectoryLength,
    OffRuler,
    Backward,
    IdTaken,
    NoRoom,
    NotAnIndex,
    NoRelationship,
    NoSuchId,
    NoSuchSlot,
    NoDays,
    NoSuchDay,
}

// A refusal with its detail: the row that decides, or the matches; 0 where the paper names none.
#[derive(Clone, Copy, Debug, PartialEq, Eq)]
pub struct Rejection {
    pub refusal: Refusal,
    pub detail: u32,
}

impl Refusal {
    pub fn with_detail(self, detail: u32) -> Rejection
        ensures { result ≡ rejection self detail }
    {
        Rejection {
            refusal: self,
            detail,
        }
    }
}

impl From<Refusal> for Rejection {
    ghost from_gives = { λ why r. r ≡ rejection why 0 };

    fn from(refusal: Refusal) -> Rejection {
        refusal.with_detail(0)
    }
}

// The words of a table row and of an index entry.
pub const ENTRY_WORDS: usize = 4;

// The constant of the code is that of the definitions.
pub fn entry_words() -> usize
    ensures { result ≡ entry_words }
{
    ENTRY_WORDS
}

// The subdivision of a half's "in" or "aft" entries.
#[tactic(auto, unfolding(crate::specs::Stored::subdivision_of))]
pub fn subdivision_of(half: Half, aft: bool) -> Subdivision
    ensures { result ≡ subdivision_of half aft }
{
    match (half, aft) {
        (Half::Originals, false) => Subdivision::OIn,
        (Half::Originals, true) => Subdivision::OAft,
        (Half::Replicas, false) => Subdivision::RIn,
        (Half::Replicas, true) => Subdivision::RAft,
    }
}

// The paper's number of a refusal.
impl From<Refusal> for u32 {
    ghost from_gives = { λ why n. n ≡ refusal_number why };

    fn from(refusal: Refusal) -> u32 {
        match refusal {
            Refusal::RulerOutOfBounds => 1,
            Refusal::TableSize => 2,
            Refusal::DirectoryLength => 3,
            Refusal::OffRuler => 4,
            Refusal::Backward => 5,
            Refusal::IdTaken => 6,
            Refusal::NoRoom => 7,
            Refusal::NotAnIndex => 8,
            Refusal::NoRelationship => 9,
            Refusal::NoSuchId => 10,
            Refusal::NoSuchSlot => 12,
            Refusal::NoDays => 16,
            Refusal::NoSuchDay => 17,
        }
    }
}

// The paper's number of what a call answers.
pub fn number_of(outcome: Result<(), Rejection>) -> u32
    ensures { result ≡ number_of outcome }
{
    match outcome {
        Ok(()) => 0,
        Err(rejection) => u32::from(rejection.refusal),
    }
}

// And its detail.
pub fn detail_of(outcome: Result<(), Rejection>) -> u32
    ensures { result ≡ detail_of outcome }
{
    match outcome {
        Ok(()) => 0,
        Err(rejection) => rejection.detail,
    }
}

// The tests 4 and 5 of a trip's times or of a window's.
#[tactic(auto, unfolding(crate::specs::Refusals::time_tests, crate::specs::Refusals::off_ruler, crate::specs::Refusals::backward, crate::specs::Refusals::refuse))]
pub fn time_outcome(ruler: Ruler, start: Time, end: Time, detail: u32) -> Result<(), Rejection>
    ensures { result ≡ time_tests (scale ruler) start end detail Accepted }
{
    let off_ruler = !(ruler.has(start) & ruler.has(end));
    if off_ruler {
        return Err(Refusal::OffRuler.with_detail(detail));
    }
    if end < start {
        return Err(Refusal::Backward.with_detail(detail));
    }
    Ok(())
}

// The tests 4, 5, 6 and 16 of a trip, by whether its id is taken.
#[tactic(auto, unfolding(crate::specs::Refusals::row_tests_by, crate::specs::Refusals::time_tests, crate::specs::Refusals::refuse))]
pub fn row_outcome(ruler: Ruler, t: Trip, taken: bool, detail: u32) -> Result<(), Rejection>
    ensures { result ≡ row_tests_by (scale ruler) taken t detail Accepted }
{
    time_outcome(ruler, t.start, t.end, detail)?;
    if taken {
        return Err(Refusal::IdTaken.with_detail(detail));
    }
    if t.never_runs() {
        return Err(Refusal::NoDays.with_detail(detail));
    }
    Ok(())
}

// The tests 4 and 5 of a window, and 17 of a day.
#[tactic(auto, unfolding(crate::specs::Refusals::window_tests, crate::specs::Refusals::time_tests, crate::specs::Refusals::no_such_day, crate::specs::Refusals::refuse))]
pub fn window_outcome(ruler: Ruler, window: Window, day: u32) -> Result<(), Rejection>
    ensures { result ≡ window_tests (scale ruler) window day Accepted }
{
    time_outcome(ruler, window.start, window.end, 0)?;
    if LAST_DAY < day {
        return Err(Refusal::NoSuchDay.into());
    }
    Ok(())
}
