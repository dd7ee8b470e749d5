// The number of flat lines that a line leaves.
#![tactic(auto)]

ghost use Rattle.std.specs.Prelude.{◌≡◌, true, false, ◌≤◌, ◌+◌, ◌-◌};
ghost use Rattle.flattening.specs.Model.Lines.{read_count, write_count, notes, flat_count};
ghost use Rattle.flattening.specs.Model.Fits.{Deep, Shallow};
ghost use Rattle.tables.specs.Lines.{line_of, kind_in};
ghost use Rattle.tables.specs.Tables.{known as known_of};

use flat_cells::cells;
use flat_cells::lines::Lines;
use tables::WORDS;

// A read of n cells, by an index of which c is kept: by a constant it leaves no line.
fn count_read(c: u64, n: usize) -> usize
    requires { n ≤ 256 }
    ensures { result ≡ read_count c n }
{
    if c == 0 { 2 * n.saturating_sub(1) } else { 0 }
}

// A write of n cells.
fn count_write(c: u64, n: usize) -> usize
    requires { n ≤ 256 }
    ensures { result ≡ write_count c n }
{
    if c == 0 { 2 * n } else { 0 }
}

// The line of a record.
pub fn count_line(rec: [u64; WORDS], lines: Lines) -> usize
    requires { (known_of false (kind_in rec) ≡ true) × (Shallow lines.types.now × Deep (notes lines.kept.now lines.types.now) (line_of rec)) }
    ensures { result ≡ flat_count (notes lines.entry.kept.now lines.entry.types.now) (line_of rec) }
{
    let [k, s, a, b, _] = rec;
    match k {
        2 => 1 + lines.index_size(a),
        5 => lines.size(s),
        6 | 7 => lines.size(a),
        21 | 22 => count_tests(lines.size(a)),
        53 => lines.size(b),
        54 => count_read(cells::entry(lines.kept, cells::CON, b), lines.size(a)),
        55 => count_write(cells::entry(lines.kept, cells::CON, b), lines.size(s)),
        _ => 1,
    }
}

// The tests of n cells and their joins.
fn count_tests(n: usize) -> usize
    requires { n ≤ 256 }
    ensures { result ≡ n + (n - 1) }
{
    n + n.saturating_sub(1)
}
