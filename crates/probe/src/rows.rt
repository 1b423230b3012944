// The table of the calls. A line is the call's name, its ruler, its numbers, the buffers that it only reads and those that it may write; its
// answer is the number, the detail, what else it gives and the buffers that it may write. A row says how many numbers come after the ruler, and
// which buffers; `calls` has what is called.
use crate::scan::Fields;
use layout::ENTRY_WORDS;

// The words that each buffer of a call may have.
const TABLE: usize = ENTRY_WORDS * 4100;

const DIRECTORY: usize = 8200;

const ORIGINALS: usize = ENTRY_WORDS * 4100;

const REPLICAS: usize = ENTRY_WORDS * 15000;

const ANSWERS: usize = 4100;

// The words lent: for all buffers together that a call only reads, and for each of those that it may write.
pub const READ: usize = DIRECTORY + ORIGINALS + REPLICAS;

pub const FIRST: usize = DIRECTORY;

pub const SECOND: usize = ORIGINALS;

pub const THIRD: usize = REPLICAS;

// What is called.
#[derive(Clone, Copy)]
pub enum Call {
    Build,
    Check,
    Add,
    Remove,
    Ask,
    Run,
    Census,
}

// What a call gives after its number and detail.
#[derive(Clone, Copy)]
pub enum Gives {
    Nothing,
    Count,
    Run,
    Census,
}

// A number for each buffer, in the order of the line: in a row its room, and where there is no room there is no buffer; of what was read its words,
// or, where buffers stand one after another, where it ends.
#[derive(Clone, Copy)]
pub struct Buffers {
    pub first: usize,
    pub second: usize,
    pub third: usize,
}

// What is called, how many numbers come after its ruler, which buffers it only reads, which it may write, and what it gives.
#[derive(Clone, Copy)]
pub struct Row {
    pub call: Call,
    pub numbers: usize,
    pub reads: Buffers,
    pub writes: Buffers,
    pub gives: Gives,
}

fn lent(first: usize, second: usize, third: usize) -> Buffers {
    Buffers {
        first,
        second,
        third,
    }
}

fn row_of(call: Call, numbers: usize, reads: Buffers, writes: Buffers, gives: Gives) -> Row {
    Row {
        call,
        numbers,
        reads,
        writes,
        gives,
    }
}

// The table: the row that a line names in its first field.
pub fn row_named(fields: &mut Fields<'_>) -> Option<Row> {
    let none = lent(0, 0, 0);
    let table = lent(TABLE, 0, 0);
    let index = lent(DIRECTORY, ORIGINALS, REPLICAS);
    let answers = lent(ANSWERS, 0, 0);
    match fields.next()? {
        b"build" => Some(row_of(Call::Build, 0, table, index, Gives::Nothing)),
        b"check" => Some(row_of(Call::Check, 0, index, none, Gives::Nothing)),
        b"add" => Some(row_of(Call::Add, 4, none, index, Gives::Nothing)),
        b"remove" => Some(row_of(Call::Remove, 1, none, index, Gives::Nothing)),
        b"ask" => Some(row_of(Call::Ask, 4, index, answers, Gives::Count)),
        b"run" => Some(row_of(Call::Run, 3, index, none, Gives::Run)),
        b"census" => Some(row_of(Call::Census, 0, index, none, Gives::Census)),
        _ => None,
    }
}
