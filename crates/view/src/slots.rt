// Where a slot's word stands in the directory.
ghost use Rattle.std.specs.Prelude.{◌≡◌, ◌^◌, ◌<◌, ◌≤◌};
ghost use Rattle.ruler.specs.Ruler.{deepest};
ghost use Rattle.layout.specs.Answers.{half_of, is_aft, subdivision_numbered};
ghost use Rattle.view.specs.Directory.{half_from, slot_at};

use layout::directory::half_length;
use layout::{Half, Subdivision};
use ruler::Cell;
use store::places::slot_number;

// The subdivision with a number of 0 to 3.
// Any number is taken, as the definition does: the call refuses those above 3 first.
#[tactic(auto, unfolding(layout::specs::Answers::subdivision_numbered))]
pub fn numbered(number: u32) -> Subdivision
    ensures { result ≡ subdivision_numbered number }
{
    match number {
        0 => Subdivision::OIn,
        1 => Subdivision::OAft,
        2 => Subdivision::RIn,
        _ => Subdivision::RAft,
    }
}

#[tactic(auto, unfolding(layout::specs::Answers::half_of))]
pub fn half_of(d: Subdivision) -> Half
    ensures { result ≡ half_of d }
{
    match d {
        Subdivision::OIn | Subdivision::OAft => Half::Originals,
        Subdivision::RIn | Subdivision::RAft => Half::Replicas,
    }
}

#[tactic(auto, unfolding(layout::specs::Answers::is_aft))]
fn is_aft(d: Subdivision) -> bool
    ensures { result ≡ is_aft d }
{
    matches!(d, Subdivision::OAft | Subdivision::RAft)
}

// The words of the directory before those of a half.
#[tactic(auto, unfolding(crate::specs::Directory::half_from))]
fn half_from(m: u32, half: Half) -> usize
    requires { m ≤ deepest }
    ensures { result ≡ half_from m half }
{
    match half {
        Half::Originals => 0,
        Half::Replicas => half_length(m),
    }
}

// The place in the directory of the word of a slot.
pub fn slot_at(m: u32, level: u32, i: u32, d: Subdivision) -> usize
    requires { (m ≤ deepest) × (level ≤ m) × (i < 2 ^ level) }
    ensures { result ≡ slot_at m level i d }
{
    half_from(m, half_of(d)) + slot_number(Cell::at(level, i), is_aft(d)) as usize
}
