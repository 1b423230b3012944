// Each relationship as bounds on a trip's start and end, made once for a question: an entry is then tested by four comparisons.
ghost use Rattle.std.specs.Prelude.{◌≡◌, ◌<◌};
ghost use Rattle.plan.specs.Bounds.{has, bounds, inside, far, exactly, exactly_if, later, earlier, between, since, until, any, bounds_of};

use ruler::Time;
use trip::{Relationship, Trip, Window};

// The times from one on, up to another that is not of them.
#[derive(Clone, Copy)]
pub struct Span {
    pub from: Time,
    pub until: Time,
}

impl Span {
    #[tactic(auto, unfolding(crate::specs::Bounds::has))]
    pub fn has(self, t: Time) -> bool
        ensures { result ≡ has self t }
    {
        (self.from <= t) & (t < self.until)
    }

    fn exactly(t: Time) -> Span
        requires { t.0 < far }
        ensures { result ≡ exactly t }
    {
        Span {
            from: t,
            until: t.next(),
        }
    }

    // A time alone where the test passes, and no time where it does not.
    fn exactly_if(test: bool, t: Time) -> Span
        requires { t.0 < far }
        ensures { result ≡ exactly_if test t }
    {
        if test {
            return Span::exactly(t);
        }
        Span { from: t, until: t }
    }

    fn later(t: Time) -> Span
        requires { t.0 < far }
        ensures { result ≡ later t }
    {
        Span {
            from: t.next(),
            until: Time::at(FAR),
        }
    }

    fn earlier(t: Time) -> Span
        ensures { result ≡ earlier t }
    {
        Span {
            from: Time::at(0),
            until: t,
        }
    }

    fn between(a: Time, b: Time) -> Span
        requires { a.0 < far }
        ensures { result ≡ between a b }
    {
        Span {
            from: a.next(),
            until: b,
        }
    }

    fn since(t: Time) -> Span
        ensures { result ≡ since t }
    {
        Span {
            from: t,
            until: Time::at(FAR),
        }
    }

    fn until(t: Time) -> Span
        requires { t.0 < far }
        ensures { result ≡ until t }
    {
        Span {
            from: Time::at(0),
            until: t.next(),
        }
    }

    fn any() -> Span
        ensures { result ≡ any }
    {
        Span {
            from: Time::at(0),
            until: Time::at(FAR),
        }
    }
}

// Where a trip's start and its end have to lie.
#[derive(Clone, Copy)]
pub struct Bounds {
    pub start: Span,
    pub end: Span,
}

impl Bounds {
    fn new(start: Span, end: Span) -> Bounds
        ensures { result ≡ bounds start end }
    {
        Bounds { start, end }
    }

    #[tactic(auto, unfolding(crate::specs::Bounds::inside))]
    pub fn hold(self, t: Trip) -> bool
        ensures { result ≡ inside self t }
    {
        self.start.has(t.start) & self.end.has(t.end)
    }
}

// A time after every ruler's.
const FAR: u32 = 4294967295;

// The bounds of the trips to which a window stands so.
#[tactic(auto, unfolding(crate::specs::Bounds::bounds_of))]
pub fn bounds_of(relationship: Relationship, q: Window) -> Bounds
    requires { (q.start.0 < far) × (q.end.0 < far) }
    ensures { result ≡ bounds_of relationship q }
{
    let s = q.start;
    let e = q.end;
    match relationship {
        Relationship::Equals => Bounds::new(Span::exactly(s), Span::exactly(e)),
        Relationship::Starts => Bounds::new(Span::exactly(s), Span::later(e)),
        Relationship::StartedBy => Bounds::new(Span::exactly(s), Span::earlier(e)),
        Relationship::Finishes => Bounds::new(Span::earlier(s), Span::exactly(e)),
        Relationship::FinishedBy => Bounds::new(Span::later(s), Span::exactly(e)),
        Relationship::Meets => Bounds::new(Span::exactly_if(s < e, e), Span::later(e)),
        Relationship::MetBy => Bounds::new(Span::earlier(s), Span::exactly_if(s < e, s)),
        Relationship::Overlaps => Bounds::new(Span::between(s, e), Span::later(e)),
        Relationship::OverlappedBy => Bounds::new(Span::earlier(s), Span::between(s, e)),
        Relationship::Contains => Bounds::new(Span::later(s), Span::earlier(e)),
        Relationship::ContainedBy => Bounds::new(Span::earlier(s), Span::later(e)),
        Relationship::Before => Bounds::new(Span::later(e), Span::any()),
        Relationship::After => Bounds::new(Span::any(), Span::earlier(s)),
        Relationship::GOverlaps => Bounds::new(Span::until(e), Span::since(s)),
    }
}
