// The pass over the lines: each is counted, and then its flat lines are written.
ghost use Rattle.std.specs.Prelude.{◌≡◌, [], ◌∷◌, ◌<◌, length};
ghost use Rattle.tables.specs.Answers.{told};
ghost use Rattle.flattening.specs.Answers.{flattens};
ghost use Rattle.flattening.specs.Model.Cells.{old_number, con_number, Sound, Low, keep, Written, Shortened};
ghost use Rattle.flattening.specs.Model.Start.{Begun};

use flat_cells::cells::KEPT;
use flat_cells::lines::Lines;
use flat_cells::written;
use flattening::Made;
use tables::{Note, Refusal};

// What is kept of the line written over, and of a small constant: 0 for none.
fn old_number(old: Option<u64>) -> u64
    ensures { result ≡ old_number old }
{
    old.unwrap_or(0)
}

fn con_number(con: Option<u8>) -> u32
    ensures { result ≡ con_number con }
{
    match con {
        None => 0,
        Some(v) => u32::from(v) + 1,
    }
}

// Keeps what the line n leaves. After a write by a constant index cells may be written out: the words below `used` are taken.
fn keep_line(kept: &mut [[u32; KEPT]], n: usize, m: Made, used: usize) -> usize
    requires { Sound (keep kept.old n m) × (Written (keep kept.old n m) used × (Low m × (n < length kept.old))) }
    ensures { Shortened (keep kept.old n m) kept.new result }
{
    kept[n] = [
        m.at as u32,
        m.bit as u32,
        old_number(m.old) as u32,
        m.key as u32,
        con_number(m.con),
        kept[n][5],
    ];
    match m.old {
        None => used,
        Some(_) => written::shorten(kept, n, used),
    }
}

// The lines of an accepted table.
pub fn all_lines(
    table: &[u64],
    count: usize,
    types: &[Note],
    kept: &mut [[u32; KEPT]],
    target: &mut [u64],
) -> Result<usize, Refusal>
    requires { Begun table.now count types.now kept.old target.old }
    ensures { told result (target.new ∷ []) ≡ flattens table.now count (length target.old) }
{
    let h = records::step(false, table.len());
    let room = records::room_of(false, target.len());
    let mut p: usize = 0;
    let mut used: usize = 0;
    for i in 0..count {
        let rec = records::record(false, table, h, i);
        let lines = Lines { kept, types };
        let c = flat_counts::count_line(rec, lines);
        if room - p < c {
            records::clear(target);
            return Err(Refusal::TargetTooSmall);
        }
        let m = flat_dispatch::line(rec, lines, p, target);
        used = keep_line(kept, i + 1, m, used);
        p = m.next;
    }
    Ok(p)
}
