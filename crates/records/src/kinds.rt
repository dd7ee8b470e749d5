// The kinds: one constant table of their words, operand counts and operand classes, which reader, checker and writer index by kind.
pub mod letters; // the letters of the words

ghost use Rattle.std.specs.Prelude.{◌≡◌, ◌≤◌};
ghost use Rattle.tables.specs.Kinds.{rows, row_of, sort_class, operand_count, first_class, second_class, third_class};

use letters::*;

// The class of a place says what may stand as a line's sort, or as an operand of it. NONE: the line has no such place.
pub const NONE: u8 = 0;
// a line that is a word
pub const WORD: u8 = 1;
// a line that is an array
pub const ARRAY: u8 = 2;
// a line that is a word or an array
pub const VALUE: u8 = 3;
// a state line
pub const STATE: u8 = 4;
// a sort line of words
pub const WSORT: u8 = 5;
// a sort line of arrays
pub const ASORT: u8 = 6;
// any sort line
pub const SORT: u8 = 7;
// no line, but a number that stays as it is written
pub const NUM: u8 = 8;

// The kind of a not record.
pub const NOT: u64 = 11;

// A row: the word's length, its letters in ten places, the class of the sort, the number of operands, their classes in three places.
pub const KINDS: [[u8; 16]; 63] = [
    // 1 to 5: sorts, constants, inputs, states
    [6, B, I, T, V, E, C, 0, 0, 0, 0, NONE, 1, NUM, 0, 0],
    [5, A, R, R, A, Y, 0, 0, 0, 0, 0, NONE, 2, WSORT, WSORT, 0],
    [6, C, O, N, S, T, D, 0, 0, 0, 0, WSORT, 1, NUM, 0, 0],
    [5, I, N, P, U, T, 0, 0, 0, 0, 0, WSORT, 0, 0, 0, 0],
    [5, S, T, A, T, E, 0, 0, 0, 0, 0, SORT, 0, 0, 0, 0],
    // 6 to 10: what states start with and take next, signals, outputs
    [4, I, N, I, T, 0, 0, 0, 0, 0, 0, SORT, 2, STATE, WORD, 0],
    [4, N, E, X, T, 0, 0, 0, 0, 0, 0, SORT, 2, STATE, VALUE, 0],
    [3, B, A, D, 0, 0, 0, 0, 0, 0, 0, NONE, 1, WORD, 0, 0],
    [10, C, O, N, S, T, R, A, I, N, T, NONE, 1, WORD, 0, 0],
    [6, O, U, T, P, U, T, 0, 0, 0, 0, NONE, 1, WORD, 0, 0],
    // 11 to 20: operators of one word
    [3, N, O, T, 0, 0, 0, 0, 0, 0, 0, WSORT, 1, WORD, 0, 0],
    [3, N, E, G, 0, 0, 0, 0, 0, 0, 0, WSORT, 1, WORD, 0, 0],
    [3, I, N, C, 0, 0, 0, 0, 0, 0, 0, WSORT, 1, WORD, 0, 0],
    [3, D, E, C, 0, 0, 0, 0, 0, 0, 0, WSORT, 1, WORD, 0, 0],
    [6, R, E, D, A, N, D, 0, 0, 0, 0, WSORT, 1, WORD, 0, 0],
    [5, R, E, D, O, R, 0, 0, 0, 0, 0, WSORT, 1, WORD, 0, 0],
    [6, R, E, D, X, O, R, 0, 0, 0, 0, WSORT, 1, WORD, 0, 0],
    [5, S, L, I, C, E, 0, 0, 0, 0, 0, WSORT, 3, WORD, NUM, NUM],
    [4, U, E, X, T, 0, 0, 0, 0, 0, 0, WSORT, 2, WORD, NUM, 0],
    [4, S, E, X, T, 0, 0, 0, 0, 0, 0, WSORT, 2, WORD, NUM, 0],
    // 21 to 52: operators of two; eq and neq take arrays as well
    [2, E, Q, 0, 0, 0, 0, 0, 0, 0, 0, WSORT, 2, VALUE, VALUE, 0],
    [3, N, E, Q, 0, 0, 0, 0, 0, 0, 0, WSORT, 2, VALUE, VALUE, 0],
    [3, U, L, T, 0, 0, 0, 0, 0, 0, 0, WSORT, 2, WORD, WORD, 0],
    [4, U, L, T, E, 0, 0, 0, 0, 0, 0, WSORT, 2, WORD, WORD, 0],
    [3, U, G, T, 0, 0, 0, 0, 0, 0, 0, WSORT, 2, WORD, WORD, 0],
    [4, U, G, T, E, 0, 0, 0, 0, 0, 0, WSORT, 2, WORD, WORD, 0],
    [3, S, L, T, 0, 0, 0, 0, 0, 0, 0, WSORT, 2, WORD, WORD, 0],
    [4, S, L, T, E, 0, 0, 0, 0, 0, 0, WSORT, 2, WORD, WORD, 0],
    [3, S, G, T, 0, 0, 0, 0, 0, 0, 0, WSORT, 2, WORD, WORD, 0],
    [4, S, G, T, E, 0, 0, 0, 0, 0, 0, WSORT, 2, WORD, WORD, 0],
    [3, I, F, F, 0, 0, 0, 0, 0, 0, 0, WSORT, 2, WORD, WORD, 0],
    [7, I, M, P, L, I, E, S, 0, 0, 0, WSORT, 2, WORD, WORD, 0],
    [3, A, N, D, 0, 0, 0, 0, 0, 0, 0, WSORT, 2, WORD, WORD, 0],
    [2, O, R, 0, 0, 0, 0, 0, 0, 0, 0, WSORT, 2, WORD, WORD, 0],
    [3, X, O, R, 0, 0, 0, 0, 0, 0, 0, WSORT, 2, WORD, WORD, 0],
    [4, N, A, N, D, 0, 0, 0, 0, 0, 0, WSORT, 2, WORD, WORD, 0],
    [3, N, O, R, 0, 0, 0, 0, 0, 0, 0, WSORT, 2, WORD, WORD, 0],
    [4, X, N, O, R, 0, 0, 0, 0, 0, 0, WSORT, 2, WORD, WORD, 0],
    [3, A, D, D, 0, 0, 0, 0, 0, 0, 0, WSORT, 2, WORD, WORD, 0],
    [3, S, U, B, 0, 0, 0, 0, 0, 0, 0, WSORT, 2, WORD, WORD, 0],
    [3, M, U, L, 0, 0, 0, 0, 0, 0, 0, WSORT, 2, WORD, WORD, 0],
    [4, U, D, I, V, 0, 0, 0, 0, 0, 0, WSORT, 2, WORD, WORD, 0],
    [4, U, R, E, M, 0, 0, 0, 0, 0, 0, WSORT, 2, WORD, WORD, 0],
    [4, S, D, I, V, 0, 0, 0, 0, 0, 0, WSORT, 2, WORD, WORD, 0],
    [4, S, R, E, M, 0, 0, 0, 0, 0, 0, WSORT, 2, WORD, WORD, 0],
    [4, S, M, O, D, 0, 0, 0, 0, 0, 0, WSORT, 2, WORD, WORD, 0],
    [3, S, L, L, 0, 0, 0, 0, 0, 0, 0, WSORT, 2, WORD, WORD, 0],
    [3, S, R, L, 0, 0, 0, 0, 0, 0, 0, WSORT, 2, WORD, WORD, 0],
    [3, S, R, A, 0, 0, 0, 0, 0, 0, 0, WSORT, 2, WORD, WORD, 0],
    [3, R, O, L, 0, 0, 0, 0, 0, 0, 0, WSORT, 2, WORD, WORD, 0],
    [3, R, O, R, 0, 0, 0, 0, 0, 0, 0, WSORT, 2, WORD, WORD, 0],
    [6, C, O, N, C, A, T, 0, 0, 0, 0, WSORT, 2, WORD, WORD, 0],
    // 53 to 55: choice, and the operators of arrays
    [3, I, T, E, 0, 0, 0, 0, 0, 0, 0, SORT, 3, WORD, VALUE, VALUE],
    [4, R, E, A, D, 0, 0, 0, 0, 0, 0, WSORT, 2, ARRAY, WORD, 0],
    [5, W, R, I, T, E, 0, 0, 0, 0, 0, ASORT, 3, ARRAY, WORD, WORD],
    // 56: a program's mask, which has no word
    [0, 0, 0, 0, 0, 0, 0, 0, 0, 0, 0, WSORT, 1, WORD, 0, 0],
    // 57 to 63: overflow detectors
    [5, U, A, D, D, O, 0, 0, 0, 0, 0, WSORT, 2, WORD, WORD, 0],
    [5, S, A, D, D, O, 0, 0, 0, 0, 0, WSORT, 2, WORD, WORD, 0],
    [5, U, S, U, B, O, 0, 0, 0, 0, 0, WSORT, 2, WORD, WORD, 0],
    [5, S, S, U, B, O, 0, 0, 0, 0, 0, WSORT, 2, WORD, WORD, 0],
    [5, U, M, U, L, O, 0, 0, 0, 0, 0, WSORT, 2, WORD, WORD, 0],
    [5, S, M, U, L, O, 0, 0, 0, 0, 0, WSORT, 2, WORD, WORD, 0],
    [5, S, D, I, V, O, 0, 0, 0, 0, 0, WSORT, 2, WORD, WORD, 0],
];

// The rows of all kinds. A pass over many lines takes them once.
pub fn all() -> [[u8; 16]; 63]
    ensures { result ≡ rows }
{
    KINDS
}

// The row of a kind, from the rows of all.
#[tactic(auto, unfolding(tables::specs::Kinds::row_of))]
pub fn row_of(kinds: &[[u8; 16]; 63], k: u64) -> [u8; 16]
    requires { (1 ≤ k) × ((k ≤ 63) × (kinds.now ≡ rows)) }
    ensures { result ≡ row_of k }
{
    kinds[(k - 1) as usize]
}

// The class of a row's sort.
pub fn sort_class(row: [u8; 16]) -> u8
    ensures { result ≡ sort_class row }
{
    row[11]
}

// The number of a row's operands.
pub fn operand_count(row: [u8; 16]) -> u8
    ensures { result ≡ operand_count row }
{
    row[12]
}

// The class of a row's first operand.
pub fn first_class(row: [u8; 16]) -> u8
    ensures { result ≡ first_class row }
{
    row[13]
}

// The class of a row's second operand.
pub fn second_class(row: [u8; 16]) -> u8
    ensures { result ≡ second_class row }
{
    row[14]
}

// The class of a row's third operand.
pub fn third_class(row: [u8; 16]) -> u8
    ensures { result ≡ third_class row }
{
    row[15]
}
