// A part in the order of a time, cut by halving to the entries whose times can match, so that only these are tested.
ghost use Rattle.std.specs.Prelude.{◌≡◌};
ghost use Rattle.lists.specs.Lists.{keep};
ghost use Rattle.layout.specs.Words.{words, rows};
ghost use Rattle.ruler.specs.declared.Time.{Time};
ghost use Rattle.trip.specs.declared.Trip.{Trip};
ghost use Rattle.store.specs.Ordered.{Parted};
ghost use Rattle.walk.specs.Cut.{earlier_than, timely, cut_of, Ordered, Rises};

use layout::ENTRY_WORDS;
use plan::bounds::{Bounds, Span};
use plan::looks::Order;
use ruler::Time;
use store::search::entries_while;
use trip::Trip;

// How many entries, from the front, have a time before the limit.
fn entries_before<F: Fn(Trip) -> Time>(time: &F, limit: Time, part: &[u32]) -> usize
    ghost at: { Trip → Time }
    requires callable { F.IsAlwaysCallable time.now }
    requires times { (t : Trip) → (r : Time) → F.post time.now t r → r ≡ at t }
    requires rises { Rises at part.now }
    ensures { Parted (earlier_than at limit) part.now result }
{
    entries_while(part, |t| time(t) < limit)
}

// The entries whose time is of the span. Where the span has no time the second search may stop before the first.
fn within<F: Fn(Trip) -> Time>(time: F, span: Span, part: &[u32]) -> &[u32]
    ghost at: { Trip → Time }
    requires callable { F.IsAlwaysCallable time }
    requires times { (t : Trip) → (r : Time) → F.post time t r → r ≡ at t }
    requires rises { Rises at part.now }
    ensures { result.now ≡ words (keep (timely at span) (rows part.now)) }
{
    let from = entries_before(&time, span.from, part);
    let to = entries_before(&time, span.until, part).max(from);
    &part[ENTRY_WORDS * from..ENTRY_WORDS * to]
}

// So few entries that testing each is quicker than two searches, whose every step may go either way.
const FEW: usize = 16;

// A part without the entries whose time cannot match. Where it has few, or is in no order of times, nothing is cut.
#[tactic(auto, using(crate::proofs::Searched::ordered_by_start, crate::proofs::Searched::ordered_by_end), unfolding(crate::specs::Cut::cut_of))]
pub fn cut(order: Order, bounds: Bounds, part: &[u32]) -> &[u32]
    requires { Ordered order part.now }
    ensures { result.now ≡ cut_of order bounds part.now }
{
    if part.len() <= ENTRY_WORDS * FEW {
        return part;
    }
    match order {
        Order::ByStart => within(|t| t.start, bounds.start, part),
        Order::ByEnd => within(|t| t.end, bounds.end, part),
        Order::Other => part,
    }
}
