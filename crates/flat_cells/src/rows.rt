// Rows of records: the lines for each cell.
ghost use Rattle.std.specs.Prelude.{◌≡◌, false, [], ◌∷◌, ◌+◌, ◌≤◌, ◌<◌, ◌*◌, length};
ghost use Rattle.tables.specs.Layout.{held};
ghost use Rattle.flattening.specs.Placed.{put_flat};
ghost use Rattle.flattening.specs.Model.Cells.{Sound};
ghost use Rattle.flattening.specs.Model.Rows.{Tame, rows_for, row_at, pair_at};

use crate::cells;
use crate::cells::KEPT;
use flattening::Source;
use tables::WORDS;

// The record of a flat line goes to the place i; its id is its number, from 1.
pub fn put(target: &mut [u64], i: usize, rec: [u64; WORDS])
    requires { i < held false (length target.old) }
    ensures { target.new ≡ put_flat target.old i (rec ∷ []) }
{
    records::put_line(target, i, rec, (i + 1) as u64);
}

// n records of the kind k and the sort line s, from the place p on: the record j has the words j of the three sources.
pub fn rows(
    kept: &[[u32; KEPT]],
    target: &mut [u64],
    p: usize,
    n: usize,
    k: u64,
    s: u64,
    x: Source,
    y: Source,
    z: Source,
)
    requires { Sound kept.now × (Tame x × (Tame y × (Tame z × ((n ≤ 256) × (p + n ≤ held false (length target.old)))))) }
    ensures { target.new ≡ put_flat target.old p (rows_for n (row_at kept.now k s x y z)) }
{
    for j in 0..n {
        let i = j as u64;
        let rec = records::of(
            k,
            s,
            cells::source(kept, x, i),
            cells::source(kept, y, i),
            cells::source(kept, z, i),
        );
        put(target, p + j, rec);
    }
}

// n pairs of records from the place p on, for n index constants: an eq, of the sort line o, of the index i and the word j of c; then an ite, of the sort line s, of that eq
// and the words j of x and y.
pub fn pairs(
    kept: &[[u32; KEPT]],
    target: &mut [u64],
    p: usize,
    n: usize,
    o: u64,
    i: u64,
    s: u64,
    c: Source,
    x: Source,
    y: Source,
)
    requires { Sound kept.now × (Tame c × (Tame x × (Tame y × ((n ≤ 256) × ((p ≤ 65536) × (p + 2 * n ≤ held false (length target.old))))))) }
    ensures { target.new ≡ put_flat target.old p (rows_for n (pair_at kept.now p o i s c x y)) }
{
    for j in 0..n {
        let t = j as u64;
        let q = p + 2 * j;
        let eq = records::of(21, o, i, cells::source(kept, c, t), 0);
        let ite = records::of(
            53,
            s,
            (q + 1) as u64,
            cells::source(kept, x, t),
            cells::source(kept, y, t),
        );
        put(target, q, eq);
        put(target, q + 1, ite);
    }
}
