// Texts: what reading, writing and name answer; that what is written is read back. The code is in `tokens`, `forms`, `stages`, `reading`, `writing` and `naming`.
#![tactic(auto)]

use tables::{Refusal, WORDS};

// Why a token is no number: malformed, or above 2^64 - 1.
#[derive(Clone, Copy, Debug, PartialEq, Eq)]
pub enum NumberError {
    Malformed,
    TooLarge,
}

// A line's form, and the place behind its word.
#[derive(Clone, Copy)]
pub struct Form {
    pub form: usize,
    pub at: usize,
}

// A token as a number and whether it has a minus.
#[derive(Clone, Copy)]
pub struct Signed {
    pub num: Result<u64, NumberError>,
    pub minus: bool,
}

// A line's numbers in its record: whether one was too large, how long the last was, and the place behind it; and which places of the record have a minus.
#[derive(Clone, Copy)]
pub struct Taken {
    pub big: bool,
    pub len: usize,
    pub at: usize,
    pub rec: [u64; WORDS],
    pub minus: [bool; WORDS],
}

// A line's record, and which of its places have a minus. The words stand last: where bytes end a value, it is copied in parts that overlap, which takes longer.
#[derive(Clone, Copy)]
pub struct SignedRecord {
    pub minus: [bool; WORDS],
    pub rec: [u64; WORDS],
}

// A line whose word is known: its record or its refusal, its id, and the part of the line that is its name.
#[derive(Clone, Copy)]
pub struct LineRead {
    pub own: Result<SignedRecord, Refusal>,
    pub id: u64,
    pub name: Part,
}

// Why a text is refused, and at which of its lines: the first is 1, and 0 stands where no line is at fault.
#[derive(Clone, Copy)]
pub struct TextRefusal {
    pub refusal: Refusal,
    pub line: usize,
}

// A part of a text: from a place up to another.
#[derive(Clone, Copy)]
pub struct Part {
    pub from: usize,
    pub to: usize,
}
