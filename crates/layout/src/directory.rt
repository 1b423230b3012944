// How long the directory of a ruler is.
ghost use Rattle.std.specs.Prelude.{◌≡◌, ◌≤◌};
ghost use Rattle.ruler.specs.Ruler.{deepest};
ghost use Rattle.layout.specs.Words.{half_length};

use ruler::power;

// The words of one half: where the replicas' half begins.
pub fn half_length(m: u32) -> usize
    requires { m ≤ deepest }
    ensures { result ≡ half_length m }
{
    4 * power(m) as usize - 1
}
