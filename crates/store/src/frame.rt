// What a call on an index asks before it looks at a word: the ruler, and a directory of its length.
ghost use Rattle.std.specs.Prelude.{◌≡◌, length};
ghost use Rattle.store.specs.Framing.{framed_of};

use crate::counting::directory_length;
use layout::Refusal;
use ruler::{Numbers, Ruler};

// The ruler that the numbers make, for a directory as long as it asks: the tests 1 and 3.
pub fn ruler_for(numbers: Numbers, directory: &[u32]) -> Result<Ruler, Refusal>
    ensures { result ≡ framed_of numbers (length directory.now) }
{
    let ruler = Ruler::new(numbers).ok_or(Refusal::RulerOutOfBounds)?;
    if directory.len() != directory_length(ruler.bottom()) {
        return Err(Refusal::DirectoryLength);
    }
    Ok(ruler)
}
