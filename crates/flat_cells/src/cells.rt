// The flat line of a cell.
ghost use Rattle.std.specs.Prelude.{◌≡◌, ◌<◌};
ghost use Rattle.flattening.specs.Model.Cells.{kept_of, con_of, constant_of, own_cell, cell_in, Sound};
ghost use Rattle.flattening.specs.Model.Rows.{turn_at, source_at, Tame};

use flattening::{Source, Words};

// The numbers kept of a line: where its cells are held, with the line written over and the key; its width-1 sort line; a small constant's value plus one; a word. They are
// numbers in a list and no struct, since the laws of what is kept speak of all six by their place.
pub const KEPT: usize = 6;

pub const AT: usize = 0;

pub const BIT: usize = 1;

pub const OLD: usize = 2;

pub const KEY: usize = 3;

pub const CON: usize = 4;

pub const WORD: usize = 5;

// The key of a line whose cells are written out, and the numbers that a word's flat line is one of.
pub(crate) const WRITTEN: u64 = 257;

pub(crate) const SPAN: u64 = 131072;

// The number k of what is kept of the line a; 0 past the end.
pub fn entry(kept: &[[u32; KEPT]], k: usize, a: u64) -> u64
    requires { k < 6 }
    ensures { result ≡ kept_of kept.now k a }
{
    match kept.get(a as usize) {
        Some(numbers) => u64::from(numbers[k]),
        None => 0,
    }
}

// The small constant that is kept of the line a.
pub fn constant(kept: &[[u32; KEPT]], a: u64) -> Option<u64>
    ensures { result ≡ constant_of (con_of kept.now a) }
{
    match entry(kept, CON, a) {
        0 => None,
        number => Some(number - 1),
    }
}

// The flat line of the cell j of the line m, which writes over none.
fn own(kept: &[[u32; KEPT]], m: u64, j: u64) -> u64
    requires { Sound kept.now × (j < 256) }
    ensures { result ≡ own_cell kept.now m j }
{
    let at = entry(kept, AT, m);
    let key = entry(kept, KEY, m);
    if key == WRITTEN {
        entry(kept, WORD, at + j) % SPAN
    } else {
        at + key * j
    }
}

// The flat line of the cell j of the line a. The loop goes from a line to the line that it writes over, and counts nothing.
pub fn cell(kept: &[[u32; KEPT]], a: u64, j: u64) -> u64
    requires { Sound kept.now × (j < 256) }
    ensures { result ≡ cell_in kept.now a j }
{
    let mut m = a;
    while entry(kept, OLD, m) != 0 {
        if entry(kept, KEY, m) == j {
            return entry(kept, AT, m);
        }
        m = entry(kept, OLD, m);
    }
    own(kept, m, j)
}

// The place of the word j of a source.
fn turn(s: Source, j: u64) -> u64
    ensures { result ≡ turn_at s j }
{
    match s.top {
        Some(top) => top.saturating_sub(j),
        None => j,
    }
}

// The word j of a source.
pub(crate) fn source(kept: &[[u32; KEPT]], s: Source, j: u64) -> u64
    requires { Sound kept.now × (Tame s × (j < 256)) }
    ensures { result ≡ source_at kept.now s j }
{
    let i = turn(s, j);
    match s.words {
        Words::Cells(a) => cell(kept, a, i),
        Words::Numbers { base, step } => base + step * i,
    }
}
