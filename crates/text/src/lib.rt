// The bytes of the session program: what a line means, and how a number is read and written.
// The public functions take any bytes at all, and their contracts settle every answer.
#![tactic(auto)]

ghost use Rattle.std.specs.Prelude.{◌≡◌, ◌≤◌, length, drop};
ghost use Rattle.text.specs.Bytes.{space, place_of};
ghost use Rattle.text.specs.Number.{number_of};
ghost use Rattle.text.specs.Command.{numbers_left, exactly, command_of};
ghost use Rattle.text.specs.Decimal.{decimal, written, written_of};
ghost use Rattle.lists.specs.Lists.{over};

// The byte between the fields of a line.
const SPACE: u8 = b' ';

// The first digit.
const ZERO: u8 = b'0';

// The letter of a line that gives the ruler, of one that adds a trip, of one that removes one, and of a question.
const RULER: u8 = b'D';

const ADD: u8 = b'T';

const REMOVE: u8 = b'X';

const ASK: u8 = b'Q';

// Numbers are decimal.
const BASE: u32 = 10;

// How many digits a number has at most.
pub const MOST_DIGITS: usize = 10;

// How many numbers a line has at most, and so how many bytes a line that means something: a letter, and each number after a space.
const MOST_NUMBERS: usize = 4;

pub const LONGEST_LINE: usize = 1 + MOST_NUMBERS * (1 + MOST_DIGITS);

// What a line means.
#[derive(Clone, Copy)]
pub enum Command {
    Ruler {
        w: u32,
        m: u32,
    },
    Add {
        id: u32,
        start: u32,
        end: u32,
        days: u32,
    },
    Remove {
        id: u32,
    },
    Ask {
        code: u32,
        start: u32,
        end: u32,
        day: u32,
    },
}

// Where the field that begins at `from` ends: at the space after it, or at the end of the bytes.
pub fn field_end(bytes: &[u8], from: usize) -> usize
    ensures { result ≡ place_of space bytes.now from }
{
    let rest = &bytes[from.min(bytes.len())..];
    from + rest.iter().take_while(|byte| **byte != SPACE).count()
}

// A field as a number. The length is judged first: ten digits fit a u64, so the value can be judged once, at the end. The
// library's parse takes a sign too.
pub fn number_of(field: &[u8]) -> Option<u32>
    ensures { result ≡ number_of field.now }
{
    if field.is_empty() || MOST_DIGITS < field.len() {
        return None;
    }
    let mut value: u64 = 0;
    for byte in field {
        if !byte.is_ascii_digit() {
            return None;
        }
        value = value * (BASE as u64) + u64::from(*byte - ZERO);
    }
    u32::try_from(value).ok()
}

// The N numbers after a line's letter, each after a space, where nothing else is there.
fn numbers<const N: usize>(after_letter: &[u8]) -> Option<[u32; N]>
    ensures { result ≡ exactly N (numbers_left after_letter.now) }
{
    let mut numbers = [0; N];
    let mut left = after_letter;
    for number in numbers.iter_mut() {
        let fields = left.strip_prefix(&[SPACE])?;
        let (field, rest) = fields.split_at(field_end(fields, 0));
        *number = number_of(field)?;
        left = rest;
    }
    if left.is_empty() { Some(numbers) } else { None }
}

// What a line means, given without its newline: each letter has its own count of numbers. A malformed line means nothing.
pub fn command_of(line: &[u8]) -> Option<Command>
    ensures { result ≡ command_of line.now }
{
    let (letter, rest) = line.split_first()?;
    match *letter {
        RULER => {
            let [w, m] = numbers::<2>(rest)?;
            Some(Command::Ruler { w, m })
        }
        ADD => {
            let [id, start, end, days] = numbers::<4>(rest)?;
            Some(Command::Add {
                id,
                start,
                end,
                days,
            })
        }
        REMOVE => {
            let [id] = numbers::<1>(rest)?;
            Some(Command::Remove { id })
        }
        ASK => {
            let [code, start, end, day] = numbers::<4>(rest)?;
            Some(Command::Ask {
                code,
                start,
                end,
                day,
            })
        }
        _ => None,
    }
}

// How many digits a number has. 0 has one, as 1 has.
fn digit_count(n: u32) -> usize
    ensures { result ≡ length (decimal n) }
{
    if n < BASE { 1 } else { n.ilog10() as usize + 1 }
}

// Writes the digits of a number at the front of `out`, the last digit first, since division gives them in that order.
fn put_digits(n: u32, count: usize, out: &mut [u8])
    requires { (count ≡ length (decimal n)) × (count ≤ length out.old) }
    ensures { out.new ≡ over (decimal n) out.old }
{
    let mut left = n;
    for i in (1..count).rev() {
        out[i] = ZERO + (left % BASE) as u8;
        left /= BASE;
    }
    out[0] = ZERO + left as u8;
}

// Writes a number at the front of `out` and gives how many bytes it took. Where it has no room, it takes 0 and `out` stays as it
// was. MOST_DIGITS bytes are room for any number. No Display: the bytes are lent, and their number is promised.
pub fn write_number(n: u32, out: &mut [u8]) -> usize
    ensures { written result out.new ≡ written_of n out.old }
{
    let count = digit_count(n);
    if out.len() < count {
        return 0;
    }
    put_digits(n, count, out);
    count
}
