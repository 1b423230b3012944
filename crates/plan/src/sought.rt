// What a question seeks: trips within the bounds of its relationship that run on its day.
ghost use Rattle.std.specs.Prelude.{◌≡◌, ◌<◌, ◌≤◌};
ghost use Rattle.trip.specs.Trips.{last_day};
ghost use Rattle.plan.specs.Bounds.{far};
ghost use Rattle.plan.specs.Sought.{is_sought, sought_by};

use crate::bounds::{Bounds, bounds_of};
use ruler::power;
use trip::{Question, Trip};

// The days are bits: that of the one day asked for.
#[derive(Clone, Copy)]
pub struct Sought {
    pub bounds: Bounds,
    pub days: u32,
}

impl Sought {
    // Whether a trip is sought. One that is sure to be within the bounds is not tested for them: in a loop over such trips the compiler leaves that out.
    #[tactic(auto, unfolding(crate::specs::Sought::is_sought))]
    pub fn has(self, sure: bool, t: Trip) -> bool
        ensures { result ≡ is_sought self sure t }
    {
        let runs = t.runs_on_any(self.days);
        if sure {
            return runs;
        }
        self.bounds.hold(t) & runs
    }
}

pub fn sought_by(q: Question) -> Sought
    requires { (q.window.start.0 < far) × (q.window.end.0 < far) × (q.day ≤ last_day) }
    ensures { result ≡ sought_by q }
{
    Sought {
        bounds: bounds_of(q.relationship, q.window),
        days: power(q.day),
    }
}
