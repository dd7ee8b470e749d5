// Tables: what a record and a line are, the kinds, the rules, when a table is accepted, and the laws of these. The code is in `records`, `types`, `widths`, `rules` and `checks`.
#![tactic(auto)]

// The words of a record that is handed about.
pub const WORDS: usize = 5;

// Why an operation refuses. As a number it is that of include/gofeshan.h.
#[derive(Clone, Copy, Debug, PartialEq, Eq)]
pub enum Refusal {
    NotATable,
    TextTooLong,
    WrongId,
    NoRecordLeft,
    UnknownWord,
    BadOperand,
    NumberTooLarge,
    WrongClass,
    Misfit,
    InitOrNext,
    BadTable,
    TargetTooSmall,
    TooManySteps,
    StartWords,
    InputWords,
    SignalBytes,
    WorkArea,
    NoSuchCell,
    ArrayPresent,
    BadProgram,
    TextBuffer,
    NameUsed,
}

impl From<Refusal> for u64 {
    ghost use Rattle.std.specs.Prelude.{◌≡◌};
    ghost use Rattle.tables.specs.Refusals.{number_of};

    ghost from_gives = { λ r n. n ≡ number_of r };

    fn from(r: Refusal) -> u64 {
        match r {
            Refusal::NotATable => 1,
            Refusal::TextTooLong => 2,
            Refusal::WrongId => 3,
            Refusal::NoRecordLeft => 4,
            Refusal::UnknownWord => 5,
            Refusal::BadOperand => 6,
            Refusal::NumberTooLarge => 7,
            Refusal::WrongClass => 8,
            Refusal::Misfit => 9,
            Refusal::InitOrNext => 10,
            Refusal::BadTable => 11,
            Refusal::TargetTooSmall => 12,
            Refusal::TooManySteps => 13,
            Refusal::StartWords => 14,
            Refusal::InputWords => 15,
            Refusal::SignalBytes => 16,
            Refusal::WorkArea => 17,
            Refusal::NoSuchCell => 18,
            Refusal::ArrayPresent => 19,
            Refusal::BadProgram => 20,
            Refusal::TextBuffer => 21,
            Refusal::NameUsed => 22,
        }
    }
}

// What a line is, as far as the rules ask. The order is of use for values: a state is marked, and a marked line is a value.
#[derive(Clone, Copy, Debug, PartialEq, Eq, PartialOrd, Ord)]
pub enum Role {
    Other,
    Sort,
    Unmarked,
    Marked,
    State,
}

// What is known of a line: its role, its index width and its width.
#[derive(Clone, Copy)]
pub struct Ty {
    pub role: Role,
    pub iw: u8,
    pub w: u8,
}

// What a check keeps of a line: its type, and of a state whether it has had an init line and a next line.
#[derive(Clone, Copy)]
pub struct Note {
    pub ty: Ty,
    pub has_init: bool,
    pub has_next: bool,
}

// The note of no line.
pub const BLANK: Note = Note {
    ty: Ty {
        role: Role::Other,
        iw: 0,
        w: 0,
    },
    has_init: false,
    has_next: false,
};
