// How many entries that a plan looks at match.
ghost use Rattle.std.specs.Prelude.{◌≡◌, ◌+◌, ◌≤◌, length};
ghost use Rattle.std.proofs.Common.{rules};
ghost use Rattle.std.proofs.lemmas.Grind.{common_steps};
ghost use Rattle.lists.specs.Lists.{keep};
ghost use Rattle.ruler.specs.Ruler.{most_trips};
ghost use Rattle.layout.specs.Words.{rows};
ghost use Rattle.plan.specs.Sought.{is_sought};
ghost use Rattle.walk.specs.Seen.{LevelsSeen, levels_seen};

use crate::visit::{Visitor, walk_levels};
use layout::ENTRY_WORDS;
use plan::range::Plan;
use plan::sought::Sought;
use store::entry::trip_at;
use store::words::Words;

// How many entries of a part match. Where all are sure to be within the bounds, the day alone tells.
fn count_part(sure: bool, sought: Sought, part: &[u32]) -> usize
    ensures { result ≡ length (keep (is_sought sought sure) (rows part.now)) }
{
    let n = part.len() / ENTRY_WORDS;
    let mut count: usize = 0;
    for i in 0..n {
        if sought.has(sure, trip_at(part, i)) {
            count += 1;
        }
    }
    count
}

// The number of the matches that were met.
#[derive(Drop)]
struct Count(usize);

impl Visitor for Count {
    ghost CanTake = { λ a ts. a.0 + length ts ≤ most_trips };

    ghost Took = { λ a ts b. b.0 ≡ a.0 + length ts };

    ghost none = { Prim.search (rules, common_steps) };

    ghost more = { Prim.search (rules, common_steps) };

    ghost first = { Prim.search (rules, common_steps) };

    ghost rest = { Prim.search (rules, common_steps) };

    fn take(&mut self, sought: Sought, sure: bool, part: &[u32]) {
        self.0 += count_part(sure, sought, part);
    }
}

// How many match in all.
pub fn count_levels(sought: Sought, plan: Plan, words: Words) -> usize
    requires levels_there { LevelsSeen words plan }
    requires few_matches { length (levels_seen sought words plan) ≤ most_trips }
    ensures { result ≡ length (levels_seen sought words.entry plan) }
{
    let mut count = Count(0);
    walk_levels(&mut count, sought, words, plan);
    count.0
}
