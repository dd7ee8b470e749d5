// Flat lines of which there is one for each cell, or two: the constants of an array sort, the comparisons of an eq or a neq and their joins, the chain of a read.
#![tactic(auto)]

ghost use Rattle.std.specs.Prelude.{◌≡◌, false, ◌+◌, ◌≤◌, ◌-◌, ◌*◌, length};
ghost use Rattle.tables.specs.Layout.{held};
ghost use Rattle.flattening.specs.Placed.{put_flat};
ghost use Rattle.flattening.specs.Model.Cells.{Sound};
ghost use Rattle.flattening.specs.Model.Rows.{array_records, join_records, equality_records, read_records};

use flat_cells::cells::KEPT;
use flat_cells::{cells, rows, sources};

// An array sort of n cells, whose index sort has the flat line s: a width-1 sort, then the index constants.
pub fn array_lines(kept: &[[u32; KEPT]], s: u64, n: usize, p: usize, target: &mut [u64])
    requires { Sound kept.now × ((n ≤ 256) × (p + (1 + n) ≤ held false (length target.old))) }
    ensures { target.new ≡ put_flat target.old p (array_records kept.now s n) }
{
    rows::put(target, p, records::of(1, 0, 1, 0, 0));
    let z = sources::run(0, 0);
    rows::rows(kept, target, p + 1, n, 3, s, sources::run(0, 1), z, z);
}

// The ands, or ors, of n tests that begin at the place p, from the left.
fn join_lines(kept: &[[u32; KEPT]], j: u64, s: u64, n: usize, p: usize, target: &mut [u64])
    requires { Sound kept.now × ((n ≤ 256) × ((p ≤ 65536) × (p + (n + (n - 1)) ≤ held false (length target.old)))) }
    ensures { target.new ≡ put_flat target.old (p + n) (join_records kept.now p j s n) }
{
    if n < 2 {
        return;
    }
    rows::put(
        target,
        p + n,
        records::of(j, s, (p + 1) as u64, (p + 2) as u64, 0),
    );
    rows::rows(
        kept,
        target,
        p + n + 1,
        n - 2,
        j,
        s,
        sources::run((p + n + 1) as u64, 1),
        sources::run((p + 3) as u64, 1),
        sources::run(0, 0),
    );
}

// eq or neq, of the kind k, of two values of n cells: a test for each cell, then their ands, or ors, of the kind j.
pub fn equality_lines(
    kept: &[[u32; KEPT]],
    k: u64,
    j: u64,
    s: u64,
    x: u64,
    y: u64,
    n: usize,
    p: usize,
    target: &mut [u64],
)
    requires { Sound kept.now × ((n ≤ 256) × ((p ≤ 65536) × (p + (n + (n - 1)) ≤ held false (length target.old)))) }
    ensures { target.new ≡ put_flat target.old p (equality_records kept.now p k j s x y n) }
{
    rows::rows(
        kept,
        target,
        p,
        n,
        k,
        s,
        sources::of(x),
        sources::of(y),
        sources::run(0, 0),
    );
    join_lines(kept, j, s, n, p, target);
}

// A read of the cells of a by the index i, from the last cell: o is the width-1 sort line, and the index constants stand after it.
pub fn read_lines(
    kept: &[[u32; KEPT]],
    o: u64,
    i: u64,
    s: u64,
    a: u64,
    n: usize,
    p: usize,
    target: &mut [u64],
)
    requires { Sound kept.now × ((2 ≤ n) × ((n ≤ 256) × ((p ≤ 60000) × ((o ≤ 65536) × (p + 2 * (n - 1) ≤ held false (length target.old)))))) }
    ensures { target.new ≡ put_flat target.old p (read_records kept.now p o i s a n) }
{
    let last = cells::cell(kept, a, (n - 1) as u64);
    let m = n - 2;
    rows::pairs(
        kept,
        target,
        p,
        1,
        o,
        i,
        s,
        sources::run_down(o + 1, m as u64),
        sources::of_down(a, m as u64),
        sources::run(last, 0),
    );
    let t = n.saturating_sub(3);
    rows::pairs(
        kept,
        target,
        p + 2,
        m,
        o,
        i,
        s,
        sources::run_down(o + 1, t as u64),
        sources::of_down(a, t as u64),
        sources::run((p + 2) as u64, 2),
    );
}
