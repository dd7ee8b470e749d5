// The words of lines: the rows of the kinds, and of the five other words for a constant.
#![tactic(auto)]

pub mod heads; // the id and the word of a line
pub mod operands; // the numbers of a line

ghost use Rattle.std.specs.Prelude.{◌≡◌, false, ◌≤◌, ◌<◌, ◌+◌, get_or};
ghost use Rattle.texts.specs.Forms.{extra, form_row, kind_of, sorted as sorted_of, sort_word};
ghost use Rattle.tables.specs.Kinds.{rows, word_of};
ghost use Rattle.texts.specs.Split.{same_bytes};
ghost use Rattle.texts.specs.Reading.{find_in, find_word};
ghost use Rattle.texts.specs.Model.Structs.{found};

use records::kinds;
use records::kinds::letters::*;
use records::kinds::{NONE, NUM, WSORT};

// const, consth, zero, one and ones, in rows like those of the kinds. In the table of kinds a kind has one word, the one that the writer prints. These five are
// further words for kind 3 that only the reader knows, so they have a table of their own.
pub const EXTRA: [[u8; 16]; 5] = [
    [5, C, O, N, S, T, 0, 0, 0, 0, 0, WSORT, 1, NUM, 0, 0],
    [6, C, O, N, S, T, H, 0, 0, 0, 0, WSORT, 1, NUM, 0, 0],
    [4, Z, E, R, O, 0, 0, 0, 0, 0, 0, WSORT, 0, 0, 0, 0],
    [3, O, N, E, 0, 0, 0, 0, 0, 0, 0, WSORT, 0, 0, 0, 0],
    [4, O, N, E, S, 0, 0, 0, 0, 0, 0, WSORT, 0, 0, 0, 0],
];

fn others() -> [[u8; 16]; 5]
    ensures { result ≡ extra }
{
    EXTRA
}

// The row of the form f; kinds are the rows of all kinds.
pub fn row(kinds: &[[u8; 16]; 63], f: usize) -> [u8; 16]
    requires { (kinds.now ≡ rows) × ((1 ≤ f) × (f ≤ 68)) }
    ensures { result ≡ form_row f }
{
    if 63 < f {
        let t = others();
        return t[f - 64];
    }
    kinds::row_of(kinds, f as u64)
}

// The kind of a form.
pub fn kind_of(f: usize) -> u64
    ensures { result ≡ kind_of f }
{
    if f <= 63 { f as u64 } else { 3 }
}

// 1 where a line has a sort, else 0.
pub fn sorted(row: [u8; 16]) -> usize
    ensures { result ≡ sorted_of row }
{
    usize::from(kinds::sort_class(row) != NONE)
}

// A token is the word of a row.
fn is_word(t: &[u8], r: [u8; 16]) -> bool
    requires { get_or r 0 0 ≤ 10 }
    ensures { result ≡ same_bytes t.now (word_of r) }
{
    t == &r[1..usize::from(r[0]) + 1]
}

// The token is `sort`.
fn is_sort(t: &[u8]) -> bool
    ensures { result ≡ same_bytes t.now sort_word }
{
    t == b"sort".as_slice()
}

// The word of the kind j has the first letter and the length of the token t: so most kinds are passed over by one byte of their rows. A mask, kind 56, has no word.
fn begins(kinds: &[[u8; 16]; 63], j: usize, t: &[u8]) -> bool
    requires { (kinds.now ≡ rows) × ((1 ≤ j) × ((j ≤ 63) × (j ≡ 56 → ⊥))) }
    ensures { result ≡ false → same_bytes t.now (word_of (form_row j)) ≡ false }
{
    let r = kinds[j - 1];
    !t.is_empty() && t[0] == r[1] && t.len() == usize::from(r[0])
}

// The first of n kinds from k on that has the word t; a mask, which has no word, is none of them. kinds are the rows of all kinds.
fn find_kind(kinds: &[[u8; 16]; 63], t: &[u8], k: usize, n: usize) -> Option<usize>
    requires { (kinds.now ≡ rows) × ((1 ≤ k) × ((k + n ≤ 64) × (56 < k + n → 56 < k))) }
    ensures { result ≡ found (find_in k n t.now) }
{
    for j in k..k + n {
        if begins(kinds, j, t) && is_word(t, kinds[j - 1]) {
            return Some(j);
        }
    }
    None
}

// The first of the forms 64 to 68 that has the word t.
fn find_other(t: &[u8]) -> Option<usize>
    ensures { result ≡ found (find_in 64 5 t.now) }
{
    for (j, row) in others().iter().enumerate() {
        if is_word(t, *row) {
            return Some(j + 64);
        }
    }
    None
}

// The form other than a sort's that has the word t; kinds are the rows of all kinds. Overflow detectors come last, so that other words are found as fast as without them.
fn find(kinds: &[[u8; 16]; 63], t: &[u8]) -> Option<usize>
    requires { kinds.now ≡ rows }
    ensures { result ≡ found (find_word t.now) }
{
    if let Some(f) = find_kind(kinds, t, 3, 53) {
        return Some(f);
    }
    if let Some(f) = find_other(t) {
        return Some(f);
    }
    find_kind(kinds, t, 57, 7)
}
