// What is kept of a line that has not ended.
ghost use Rattle.std.specs.Prelude.{◌≡◌, [], ◌∷◌, ◌++◌, take, length, ltb};
ghost use Rattle.feeding.specs.Line.{line_kept, Kept};

use text::LONGEST_LINE;

// A byte more than the longest line that means something has. A longer one is malformed however it goes on.
const LINE: usize = LONGEST_LINE + 1;

// The first bytes of a line, with zeros after them.
#[derive(Clone, Copy)]
pub struct Line {
    bytes: [u8; LINE],
    len: usize,
    ghost kept: { Kept bytes len },
}

impl Line {
    ghost use Rattle.feeding.specs.Feeding.{line_of};

    pub fn new() -> Line
        ensures { line_of result ≡ [] }
    {
        Line {
            bytes: [0; LINE],
            len: 0,
        }
    }

    pub fn is_empty(&self) -> bool
        ensures { result ≡ ltb (length (line_of self.now)) 1 }
    {
        self.len == 0
    }

    pub fn bytes(&self) -> &[u8]
        ensures { result.now ≡ line_of self.now }
    {
        &self.bytes[..self.len]
    }

    // What a line has past the bytes that are kept changes nothing.
    pub fn push(&mut self, byte: u8)
        ensures { line_of self.new ≡ take line_kept (line_of self.old ++ byte ∷ []) }
    {
        if self.len < LINE {
            self.bytes[self.len] = byte;
            self.len += 1;
        }
    }
}
