// How many partitions hold the trips of a part together.
ghost use Rattle.std.specs.Prelude.{◌≡◌, true, ◌/◌, ◌≤◌, length};
ghost use Rattle.ruler.specs.Ruler.{most_trips};
ghost use Rattle.ruler.specs.Made.{scale};
ghost use Rattle.layout.specs.Words.{entry_words, rows};
ghost use Rattle.layout.specs.Refusals.{fits};
ghost use Rattle.verify.specs.Passing.{each};
ghost use Rattle.verify.specs.Local.{counts_to};

use ruler::Ruler;
use store::counting::entries_of_all;

// Whether n is the number of partitions that hold the trips of a part, which are known to fit.
pub fn counts_to(ruler: Ruler, n: usize, part: &[u32]) -> bool
    requires { (length part.now / entry_words ≤ most_trips) × (each (fits (scale ruler)) (rows part.now) ≡ true) }
    ensures { result ≡ counts_to (scale ruler) n (rows part.now) }
{
    n == entries_of_all(ruler, part)
}
