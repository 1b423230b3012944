// What a ruler's numbers say, by their kind.
ghost use Rattle.std.specs.Prelude.{◌≡◌, true};
ghost use Rattle.ruler.specs.Ruler.{in_bounds, first_time_of, last_time_of, steps_of, span_of, share_of};

use crate::{Numbers, Ruler, SHARE_BITS, power};

#[tactic(auto, unfolding(crate::specs::Ruler::in_bounds))]
pub fn in_bounds(n: Numbers) -> bool
    ensures { result ≡ in_bounds n }
{
    match n {
        Numbers::Bits { w, m } => (1 <= w)
            & (w <= Ruler::WIDEST)
            & (m <= Ruler::DEEPEST)
            & (m <= w),
        Numbers::Spread { m, lo, hi } => (m <= Ruler::DEEPEST)
            & (lo < hi)
            & (hi < power(Ruler::WIDEST)),
    }
}

// The first time on the ruler.
#[tactic(auto, unfolding(crate::specs::Ruler::first_time_of))]
pub fn first_of(n: Numbers) -> u32
    ensures { result ≡ first_time_of n }
{
    match n {
        Numbers::Bits { .. } => 0,
        Numbers::Spread { lo, .. } => lo,
    }
}

// And the last.
#[tactic(auto, unfolding(crate::specs::Ruler::last_time_of))]
pub fn last_of(n: Numbers) -> u32
    requires { in_bounds n ≡ true }
    ensures { result ≡ last_time_of n }
{
    match n {
        Numbers::Bits { w, .. } => power(w) - 1,
        Numbers::Spread { hi, .. } => hi,
    }
}

// The cells that are climbed over all its seconds. The second kind comes to its last cell with its last time, the first one second later.
#[tactic(auto, unfolding(crate::specs::Ruler::steps_of))]
fn steps_of(n: Numbers) -> u32
    requires { in_bounds n ≡ true }
    ensures { result ≡ steps_of n }
{
    match n {
        Numbers::Bits { m, .. } => power(m),
        Numbers::Spread { m, .. } => power(m) - 1,
    }
}

// Those seconds.
#[tactic(auto, unfolding(crate::specs::Ruler::span_of))]
fn span_of(n: Numbers) -> u32
    requires { in_bounds n ≡ true }
    ensures { result ≡ span_of n }
{
    match n {
        Numbers::Bits { w, .. } => power(w),
        Numbers::Spread { lo, hi, .. } => hi - lo,
    }
}

// What a second counts for, in parts of a cell; a part more than that where it is not whole parts, so that no cell comes out too low.
pub fn share_of(n: Numbers) -> u64
    requires { in_bounds n ≡ true }
    ensures { result ≡ share_of n }
{
    let parts = (steps_of(n) as u64) << SHARE_BITS;
    parts / (span_of(n) as u64) + 1
}
