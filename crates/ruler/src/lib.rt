// The ruler: raw times, cells at a level, and the numbers that a caller names a ruler by.
#![tactic(auto)]

ghost use Rattle.std.specs.Prelude.{◌≡◌, ◌+◌, ◌-◌, ◌^◌, ◌<◌, ◌≤◌, T, true};
ghost use Rattle.ruler.specs.Ruler.{time_at, before, same_time, no_later, next_time, widest, deepest, most_trips, in_bounds, spans, bottom_of};
ghost use Rattle.ruler.specs.Ruler.{cell_of, bottom_cell, same_cell, no_later_cell, next_cell, cell_above, cell_in, parity, first_of_two};
ghost use Rattle.ruler.specs.Ruler.{first_in, last_in, begins, levels_begun, pieces, cell_rank};
ghost use Rattle.ruler.specs.Ruler.{first_time_of, last_time_of, share_of};

mod kinds;

// A raw time: whole seconds on the service day, which may pass 24:00:00. Its field is private: outside this crate a time can only be compared
// with a time, or given to the functions below, of which none but `Ruler::bottom_cell` has to do with cells. Its number leaves it by `seconds`,
// which is called only where an entry's words are written (store/src/entry.rt).
#[derive(Clone, Copy, PartialEq, Eq, PartialOrd, Ord)]
pub struct Time(u32);

impl Time {
    pub fn at(seconds: u32) -> Time
        ensures { result ≡ time_at seconds }
    {
        Time(seconds)
    }

    pub fn seconds(self) -> u32
        ensures { result ≡ self.0 }
    {
        self.0
    }

    // The time one second later.
    pub fn next(self) -> Time
        requires { self.0 + 1 < 2 ^ 32 }
        ensures { result ≡ next_time self }
    {
        Time(self.0 + 1)
    }
}

// Two numbers below it stand in one word.
const HALF_WORD: u32 = 65536;

// A second's share of a cell is counted in parts, 2 ^ 48 to the cell.
const SHARE_BITS: u32 = 48;

// A cell at a level: the level, and the cell's number there. A partition is the cell of its level that it covers. A range of cells that goes
// to a level's last ends at the cell one past it. The fields are private, and cells are compared at one level only, so their order is not derived. A cell's number leaves it
// by `rank` and `rank_at`, which are called only where a slot's number is made (store/src/places.rt, plan/src/stretches.rt); `parity` gives its last
// bit. What is counted of its digits is a number of levels or of cells. No ghost field bounds the numbers: definitions name cells of any.
#[derive(Clone, Copy)]
pub struct Cell(u32, u32);

impl Cell {
    pub fn at(level: u32, number: u32) -> Cell
        ensures { result ≡ cell_of level number }
    {
        Cell(level, number)
    }

    pub fn level(self) -> u32
        ensures { result ≡ self.0 }
    {
        self.0
    }

    pub fn same(self, other: Cell) -> bool
        requires { self.0 ≡ other.0 }
        ensures { result ≡ same_cell self other }
    {
        self.1 == other.1
    }

    pub fn no_later(self, other: Cell) -> bool
        requires { self.0 ≡ other.0 }
        ensures { result ≡ no_later_cell self other }
    {
        self.1 <= other.1
    }

    // The cell after it on its level.
    pub fn next(self) -> Cell
        requires { (self.0 ≤ deepest) × (self.1 ≤ 2 ^ self.0) }
        ensures { result ≡ next_cell self }
    {
        Cell(self.0, self.1 + 1)
    }

    // The cell of the level above in which it lies.
    pub fn above(self) -> Cell
        requires { 0 < self.0 }
        ensures { result ≡ cell_above self }
    {
        Cell(self.0 - 1, self.1 / 2)
    }

    // The cell of a level above in which it lies.
    #[tactic(auto, unfolding(crate::specs::Ruler::cell_up))]
    pub fn at_level(self, level: u32) -> Cell
        requires { (level ≤ self.0) × (self.0 ≤ deepest) }
        ensures { result ≡ cell_in level self }
    {
        Cell(level, self.1 >> (self.0 - level))
    }

    // Which of the two cells of the cell above it is: 0 or 1.
    pub fn parity(self) -> u32
        ensures { result ≡ parity self }
    {
        self.1 % 2
    }

    // The first of those two.
    pub fn first_of_two(self) -> Cell
        ensures { result ≡ first_of_two self }
    {
        Cell(self.0, self.1 / 2 * 2)
    }

    // The first of the cells of a deeper level that lie in it.
    pub fn first_at(self, level: u32) -> Cell
        requires { (self.0 ≤ level) × (level ≤ deepest) × (self.1 < 2 ^ self.0) }
        ensures { result ≡ first_in level self }
    {
        Cell(level, self.1 * power(level - self.0))
    }

    // And the last of them.
    pub fn last_at(self, level: u32) -> Cell
        requires { (self.0 ≤ level) × (level ≤ deepest) × (self.1 < 2 ^ self.0) }
        ensures { result ≡ last_in level self }
    {
        Cell(level, (self.1 + 1) * power(level - self.0) - 1)
    }

    // Whether it is the first of the cells of its level that lie in one cell of a level above.
    #[tactic(auto, unfolding(crate::specs::Ruler::begins))]
    pub fn begins(self, level: u32) -> bool
        requires { (level ≤ self.0) × (self.0 ≤ deepest) }
        ensures { result ≡ begins self level }
    {
        self.1 % power(self.0 - level) == 0
    }

    // How many levels up it still is the first of the cells that lie in one. The bit above its level's numbers ends the count at level 0.
    pub fn levels_begun(self) -> u32
        requires { (self.0 ≤ deepest) × (self.1 < 2 ^ self.0) }
        ensures { result ≡ levels_begun self }
    {
        u32::trailing_zeros(self.1 + power(self.0))
    }

    // How many levels up a cell has no more cells of this level than there are from this one to a later one.
    pub fn levels_spanned(self, last: Cell) -> u32
        requires { (self.0 ≤ deepest) × (self.1 ≤ last.1) × (last.1 < 2 ^ self.0) }
        ensures { (2 ^ result ≤ last.1 - self.1 + 1) × (last.1 - self.1 + 1 < 2 ^ (result + 1)) }
    {
        (last.1 - self.1 + 1).ilog2()
    }

    // How many cells of its level and those above, each as large as can be, make up those from it to a later one. Below the highest digit at which the
    // cell before it and the one after the last differ, each zero of the one and each digit set of the other is one: both are counted in one word.
    pub fn pieces_to(self, last: Cell) -> u32
        requires { (self.0 ≤ deepest) × (self.1 ≤ last.1) × (last.1 < 2 ^ self.0) }
        ensures { result ≡ pieces (self.0 + 1) self.1 (last.1 + 1) }
    {
        let after = last.1 + 1;
        if self.1 == 0 {
            return u32::count_ones(after);
        }
        let before = self.1 - 1;
        let share = power((before ^ after).ilog2());
        u32::count_ones((share - 1 - before % share) * HALF_WORD + after % share)
    }

    // As many cells as come before it, level after level from level 0 on.
    pub fn rank(self) -> u32
        requires { (self.0 ≤ deepest) × (self.1 ≤ 2 ^ self.0) }
        ensures { result ≡ cell_rank self }
    {
        power(self.0) - 1 + self.1
    }

    // The same of the cell of a level above in which it lies, by one shift.
    pub fn rank_at(self, level: u32) -> u32
        requires { (level ≤ self.0) × (self.0 ≤ deepest) × (self.1 < 2 ^ self.0) }
        ensures { result ≡ cell_rank (cell_in level self) }
    {
        ((power(self.0) + self.1) >> (self.0 - level)) - 1
    }
}

// What a caller names a ruler by: its numbers, not yet judged. The first kind has w and m; the second is spread over the times lo to hi.
#[derive(Clone, Copy)]
pub enum Numbers {
    Bits { w: u32, m: u32 },
    Spread { m: u32, lo: u32, hi: u32 },
}

impl Numbers {
    // The number of the deepest level, whether or not it is in bounds.
    pub fn bottom(self) -> u32
        ensures { result ≡ bottom_of self }
    {
        match self {
            Numbers::Bits { m, .. } => m,
            Numbers::Spread { m, .. } => m,
        }
    }
}

// A ruler whose numbers were in bounds when it was made. It keeps its first and last time, and what a second counts for: so no time and no cell asks
// which kind it is, and a cell takes one product and no division.
#[derive(Clone, Copy)]
pub struct Ruler {
    numbers: Numbers,
    first: u32,
    last: u32,
    share: u64,
    ghost good: { in_bounds numbers ≡ true },
    ghost first_is: { first ≡ first_time_of numbers },
    ghost last_is: { last ≡ last_time_of numbers },
    ghost share_is: { share ≡ share_of numbers },
}

impl Ruler {
    ghost use Rattle.ruler.specs.Made.{judge, scale};

    pub const WIDEST: u32 = 24;

    pub const DEEPEST: u32 = 10;

    pub const MOST_TRIPS: usize = 4096;

    pub fn new(numbers: Numbers) -> Option<Ruler>
        ensures { result ≡ judge numbers }
    {
        if !kinds::in_bounds(numbers) {
            return None;
        }
        Some(Ruler {
            numbers,
            first: kinds::first_of(numbers),
            last: kinds::last_of(numbers),
            share: kinds::share_of(numbers),
        })
    }

    // The number m of the deepest level.
    pub fn bottom(self) -> u32
        ensures { result ≡ (scale self).m }
    {
        self.numbers.bottom()
    }

    // Whether a raw time is on the ruler.
    pub fn has(self, t: Time) -> bool
        ensures { result ≡ (scale self).has t }
    {
        (self.first <= t.0) & (t.0 <= self.last)
    }

    // Whether both times are on the ruler, the first no later than the second: then the one can't be past its end, nor the other before its start.
    pub fn spans(self, start: Time, end: Time) -> bool
        ensures { result ≡ spans (scale self) start end }
    {
        (self.first <= start.0) & (start.0 <= end.0) & (end.0 <= self.last)
    }

    // The level-m cell of a time.
    pub fn bottom_cell(self, t: Time) -> Cell
        requires { T ((scale self).has t) }
        ensures { result ≡ bottom_cell (scale self) t }
    {
        let shares = (t.0 - self.first) as u64 * self.share;
        Cell(self.bottom(), (shares >> SHARE_BITS) as u32)
    }
}

// 2 ^ k, the number of partitions of a level.
pub fn power(k: u32) -> u32
    requires { k ≤ 31 }
    ensures { result ≡ 2 ^ k }
{
    1 << k
}

// The constants of the code are those of the definitions.
pub fn widest_ruler() -> u32
    ensures { result ≡ widest }
{
    Ruler::WIDEST
}

pub fn deepest_level() -> u32
    ensures { result ≡ deepest }
{
    Ruler::DEEPEST
}

pub fn most_trips() -> usize
    ensures { result ≡ most_trips }
{
    Ruler::MOST_TRIPS
}
