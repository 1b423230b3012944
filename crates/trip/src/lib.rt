// Trips, windows, the fourteen relationships and the question. Here alone is known of which words each of them is made.
#![tactic(auto)]

ghost use Rattle.std.specs.Prelude.{◌≡◌};
ghost use Rattle.trip.specs.Relationships.{named, related};
ghost use Rattle.trip.specs.Trips.{trip_of, same_trip, runs_on_any, never_runs, window_of, asking_of};

use ruler::Time;

// A trip's running time, closed at both ends, and a bit for each day on which it runs. Trips are ordered by their words, as the fields stand.
#[derive(Clone, Copy, PartialEq, Eq, PartialOrd, Ord)]
pub struct Trip {
    pub id: u32,
    pub start: Time,
    pub end: Time,
    pub days: u32,
}

impl Trip {
    // A trip made of its words.
    pub fn of(id: u32, start: u32, end: u32, days: u32) -> Trip
        ensures { result ≡ trip_of id start end days }
    {
        Trip {
            id,
            start: Time::at(start),
            end: Time::at(end),
            days,
        }
    }

    // Whether another trip has the same words: a promise of its own (docs/PUBLIC.md).
    #[tactic(auto, unfolding(crate::specs::Trips::same_trip))]
    pub fn same(self, other: Trip) -> bool
        ensures { result ≡ same_trip self other }
    {
        self == other
    }

    // Whether it runs on one of these days.
    #[tactic(auto, unfolding(crate::specs::Trips::runs_on_any))]
    pub fn runs_on_any(self, days: u32) -> bool
        ensures { result ≡ runs_on_any days self }
    {
        self.days & days != 0
    }

    // Whether it runs on no day at all.
    #[tactic(auto, unfolding(crate::specs::Trips::never_runs))]
    pub fn never_runs(self) -> bool
        ensures { result ≡ never_runs self }
    {
        self.days == 0
    }
}

// The last day on which a trip can run.
pub const LAST_DAY: u32 = 31;

#[derive(Clone, Copy)]
pub struct Window {
    pub start: Time,
    pub end: Time,
}

impl Window {
    pub fn of(start: u32, end: u32) -> Window
        ensures { result ≡ window_of start end }
    {
        Window {
            start: Time::at(start),
            end: Time::at(end),
        }
    }
}

// A question as it is put, not yet judged: its code may name nothing, its window may be off the ruler, and its day may be none.
#[derive(Clone, Copy)]
pub struct Asking {
    pub code: u32,
    pub window: Window,
    pub day: u32,
}

impl Asking {
    // A question made of its words.
    pub fn of(code: u32, start: u32, end: u32, day: u32) -> Asking
        ensures { result ≡ asking_of code start end day }
    {
        Asking {
            code,
            window: Window::of(start, end),
            day,
        }
    }
}

#[derive(Clone, Copy)]
pub enum Relationship {
    Equals,
    Starts,
    StartedBy,
    Finishes,
    FinishedBy,
    Meets,
    MetBy,
    Overlaps,
    OverlappedBy,
    Contains,
    ContainedBy,
    Before,
    After,
    GOverlaps,
}

// A question that was judged: its code names a relationship.
#[derive(Clone, Copy)]
pub struct Question {
    pub window: Window,
    pub relationship: Relationship,
    pub day: u32,
}

// The relationship that a code names.
// An Option and no TryFrom: there is nothing to say of a code that names nothing.
pub fn relationship_of(code: u32) -> Option<Relationship>
    ensures { result ≡ named code }
{
    match code {
        0 => Some(Relationship::Equals),
        1 => Some(Relationship::Starts),
        2 => Some(Relationship::StartedBy),
        3 => Some(Relationship::Finishes),
        4 => Some(Relationship::FinishedBy),
        5 => Some(Relationship::Meets),
        6 => Some(Relationship::MetBy),
        7 => Some(Relationship::Overlaps),
        8 => Some(Relationship::OverlappedBy),
        9 => Some(Relationship::Contains),
        10 => Some(Relationship::ContainedBy),
        11 => Some(Relationship::Before),
        12 => Some(Relationship::After),
        13 => Some(Relationship::GOverlaps),
        _ => None,
    }
}

// Whether the window q stands so to the trip s.
#[tactic(auto, unfolding(crate::specs::Relationships::related))]
pub fn stands_so(relationship: Relationship, q: Window, s: Trip) -> bool
    ensures { result ≡ related relationship q s }
{
    let qs = q.start;
    let qe = q.end;
    let ss = s.start;
    let se = s.end;
    match relationship {
        Relationship::Equals => (qs == ss) & (qe == se),
        Relationship::Starts => (qs == ss) & (qe < se),
        Relationship::StartedBy => (qs == ss) & (se < qe),
        Relationship::Finishes => (ss < qs) & (qe == se),
        Relationship::FinishedBy => (qs < ss) & (qe == se),
        Relationship::Meets => (qs < qe) & (qe == ss) & (ss < se),
        Relationship::MetBy => (ss < se) & (se == qs) & (qs < qe),
        Relationship::Overlaps => (qs < ss) & (ss < qe) & (qe < se),
        Relationship::OverlappedBy => (ss < qs) & (qs < se) & (se < qe),
        Relationship::Contains => (qs < ss) & (se < qe),
        Relationship::ContainedBy => (ss < qs) & (qe < se),
        Relationship::Before => (qe < ss),
        Relationship::After => (se < qs),
        Relationship::GOverlaps => (qs <= se) & (ss <= qe),
    }
}
