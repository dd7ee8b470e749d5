// Cells written out, so that a look-up goes along no more than 512 writes by constant indexes. No answer depends on when it is done.
ghost use Rattle.std.specs.Prelude.{◌≡◌, ◌+◌, ◌*◌, ◌≤◌, ◌<◌, length};
ghost use Rattle.flattening.specs.Model.Cells.{Sound, put_word, put_row, Written, Filled, Shortened};

use crate::cells;
use crate::cells::{KEPT, OLD, SPAN, WORD, WRITTEN};

// The words of a line whose cells are written out: as many as a line may have cells.
const CELLS: usize = 256;

// The sixth number kept of a line is d * SPAN + w. The number w is a word. Along the writes from that line to one that writes over none there are at most d lines.
// Where d would come to LONG, the cells of the line that is CELLS writes away are written out, unless it writes over none.
const LONG: u64 = 512;

// The sixth number of the line i.
fn put_word(kept: &mut [[u32; KEPT]], i: usize, d: u64, w: u64)
    requires { (i < length kept.old) × ((d < 512) × (w < 131072)) }
    ensures { kept.new ≡ put_word kept.old i (d * 131072 + w) }
{
    let r = kept[i];
    kept[i] = [r[0], r[1], r[2], r[3], r[4], (d * SPAN + w) as u32];
}

// The line that is CELLS writes away from the line n, or one at fewer that writes over none.
fn far(kept: &[[u32; KEPT]], n: u64) -> u64 {
    let mut m = n;
    for _ in 0..CELLS {
        let old = cells::entry(kept, OLD, m);
        if old == 0 {
            break;
        }
        m = old;
    }
    m
}

// The cells of the line m go to the words from the place u on.
fn fill(kept: &mut [[u32; KEPT]], m: u64, u: usize)
    requires { Sound kept.old × (Written kept.old u × (u + 256 ≤ length kept.old)) }
    ensures { Filled kept.old kept.new m u 256 }
{
    for j in 0..CELLS {
        let w = cells::cell(kept, m, j as u64);
        let i = u + j;
        let d = cells::entry(kept, WORD, i as u64) / SPAN % LONG;
        put_word(kept, i, d, w);
    }
}

// The cells of the line m are those written out from the place u on.
fn put_row(kept: &mut [[u32; KEPT]], m: usize, u: usize)
    requires { (m < length kept.old) × (u ≤ 65536) }
    ensures { kept.new ≡ put_row kept.old m u }
{
    let r = kept[m];
    kept[m] = [u as u32, r[1], 0, WRITTEN as u32, r[4], r[5]];
}

// The cells of the line m are written out, where it writes over another and there is room.
fn write_out(kept: &mut [[u32; KEPT]], m: u64, u: usize) -> usize
    requires { Sound kept.old × Written kept.old u }
    ensures { Shortened kept.old kept.new result }
{
    if cells::entry(kept, OLD, m) == 0 || kept.len() - u < CELLS {
        return u;
    }
    fill(kept, m, u);
    put_row(kept, m as usize, u);
    u + CELLS
}

// After the line n, which writes over another by a constant index. The 256 writes from n to a line whose cells are then written out lead to no other such line first, so there
// are at most 64 such lines, and words for all of them.
pub fn shorten(kept: &mut [[u32; KEPT]], n: usize, u: usize) -> usize
    requires { Sound kept.old × (Written kept.old u × (n < length kept.old)) }
    ensures { Shortened kept.old kept.new result }
{
    let l = n as u64;
    let w = cells::entry(kept, WORD, l) % SPAN;
    let d = cells::entry(kept, WORD, cells::entry(kept, OLD, l)) / SPAN + 1;
    if d < LONG {
        put_word(kept, n, d, w);
        return u;
    }
    put_word(kept, n, LONG / 2, w);
    write_out(kept, far(kept, l), u)
}
