// Reading a line by its row: fields parted by one space, taken one after another.
ghost use Rattle.std.specs.Prelude.{◌≤◌, length, IfSome};

use crate::rows::Buffers;
use ruler::Numbers;

// The fields of a line that are left: from the next one on, or none once the last was taken.
#[derive(Drop)]
pub struct Fields<'a> {
    left: Option<&'a [u8]>,
}

// The ruler of a call, and up to four numbers after it. Those that it has not are 0.
#[derive(Clone, Copy)]
pub struct Named {
    pub ruler: Numbers,
    pub first: u32,
    pub second: u32,
    pub third: u32,
    pub fourth: u32,
}

impl<'a> Fields<'a> {
    pub fn of(line: &'a [u8]) -> Fields<'a> {
        Fields { left: Some(line) }
    }

    // Whether all fields were taken.
    pub fn is_done(&self) -> bool {
        self.left.is_none()
    }

    // Takes the next field.
    pub fn next(&mut self) -> Option<&'a [u8]> {
        let left = self.left?;
        let end = text::field_end(left, 0);
        let (field, rest) = left.split_at(end);
        self.left = rest.strip_prefix(b" ");
        Some(field)
    }

    fn number(&mut self) -> Option<u32> {
        text::number_of(self.next()?)
    }

    // The ruler. Its first field tells its kind: the word of the second is no number, so no line can be read both ways.
    fn ruler(&mut self) -> Option<Numbers> {
        let first = self.next()?;
        if first == b"spread".as_slice() {
            let m = self.number()?;
            let lo = self.number()?;
            let hi = self.number()?;
            return Some(Numbers::Spread { m, lo, hi });
        }
        let w = text::number_of(first)?;
        let m = self.number()?;
        Some(Numbers::Bits { w, m })
    }

    // The ruler of a call, and the numbers after it, of which it has so many.
    pub fn named(&mut self, count: usize) -> Option<Named> {
        let ruler = self.ruler()?;
        let mut numbers = [0u32; 4];
        for number in numbers.iter_mut().take(count) {
            *number = self.number()?;
        }
        let [first, second, third, fourth] = numbers;
        Some(Named {
            ruler,
            first,
            second,
            third,
            fourth,
        })
    }

    // Reads a buffer, its length and then as many words, to a place of the words lent, and says where it ends. The words must fit its own
    // room and what is lent.
    fn words(&mut self, room: usize, words: &mut [u32], from: usize) -> Option<usize>
        requires { from ≤ length words.old }
        ensures { IfSome result (λ end. end ≤ length words.new) }
    {
        if room == 0 {
            return Some(from);
        }
        let count = self.number()? as usize;
        if room.min(words.len() - from) < count {
            return None;
        }
        let end = from + count;
        for word in &mut words[from..end] {
            *word = self.number()?;
        }
        Some(end)
    }

    // The buffers that a call only reads, one after another, and where each ends.
    pub fn reads(&mut self, rooms: Buffers, words: &mut [u32]) -> Option<Buffers> {
        let first = self.words(rooms.first, words, 0)?;
        let second = self.words(rooms.second, words, first)?;
        let third = self.words(rooms.third, words, second)?;
        Some(Buffers {
            first,
            second,
            third,
        })
    }

    // The buffers that a call may write, each at its own place, and how many words each has.
    pub fn writes(
        &mut self,
        rooms: Buffers,
        first: &mut [u32],
        second: &mut [u32],
        third: &mut [u32],
    ) -> Option<Buffers>
        ensures first_in_bounds { IfSome result (λ ends. ends.first ≤ length first.new) }
        ensures second_in_bounds { IfSome result (λ ends. ends.second ≤ length second.new) }
        ensures third_in_bounds { IfSome result (λ ends. ends.third ≤ length third.new) }
    {
        let a = self.words(rooms.first, first, 0)?;
        let b = self.words(rooms.second, second, 0)?;
        let c = self.words(rooms.third, third, 0)?;
        Some(Buffers {
            first: a,
            second: b,
            third: c,
        })
    }
}

// A part of the words read. The ends come in order and within the words, so that the test never fails and no proof has to carry that.
pub fn part(words: &[u32], from: usize, end: usize) -> &[u32] {
    if words.len() < end {
        return &words[0..0];
    }
    if end < from {
        return &words[0..0];
    }
    &words[from..end]
}
