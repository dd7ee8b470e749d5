// Peek: a line's word, or one cell of an array, at step 0.
#![tactic(auto)]

ghost use Rattle.std.specs.Prelude.{◌≡◌, false, ◌+◌, ◌≤◌, ◌<◌};
ghost use Rattle.tables.specs.Layout.{lines_of};
ghost use Rattle.tables.specs.Types.{rank};
ghost use Rattle.peeks.specs.Peek.{peek_at, may_peek, told_peek, peeks};
ghost use Rattle.peeks.specs.Model.Looks.{Laid, HasCell, lent_peek};
ghost use Rattle.circuits.specs.Model.Passes.{counts_of, Noted};

use area::LAID;
use circuits::Totals;
use peek_cells::Circuit;
use records::notes;
use tables::{BLANK, Note, Refusal, Role, Ty};

// The cell k of the line n, a value that has it.
fn find(
    table: &[u64],
    count: usize,
    laid: &[[u32; LAID]; 16385],
    starts: &[u64],
    row: &[u64],
    n: usize,
    k: usize,
) -> u64
    requires { Laid table.now count laid.now starts.now row.now × HasCell table.now count n k }
    ensures { result ≡ peek_at (lines_of false table.now count) starts.now row.now n k }
{
    let mut ini = [0u64; 65];
    peek_values::find_inits(table, count, &mut ini);
    let mut kept = [None; 65];
    // line 0, which is none, has the word 0
    kept[0] = Some(0);
    let circuit = Circuit {
        table,
        count,
        laid,
        inits: &ini,
        starts,
        row,
    };
    if area::cells(laid, n) == 1 {
        return peek_cells::word(&circuit, &mut kept, n);
    }
    peek_cells::cell(&circuit, &mut kept, n, k)
}

// 14, 15 and 18: s start words and i words of a row are lent, for the cell k of a line of the type y.
fn may_peek(t: Totals, y: Ty, count: usize, k: usize, s: usize, i: usize) -> Result<(), Refusal>
    requires { (t.inputs + t.free < 4294967296) × (2 ≤ rank y.role → y.iw ≤ 8) }
    ensures { result ≡ may_peek (counts_of t) (t.inputs + t.free) y count k s i }
{
    if s != t.states {
        return Err(Refusal::StartWords);
    }
    if i != t.inputs + t.free {
        return Err(Refusal::InputWords);
    }
    if 64 < count || y.role < Role::Unmarked {
        return Err(Refusal::NoSuchCell);
    }
    let m: usize = 1 << y.iw;
    if m <= k {
        return Err(Refusal::NoSuchCell);
    }
    Ok(())
}

// A peek at an accepted table, with the notes of its check.
fn peek_checked(
    table: &[u64],
    count: usize,
    notes: &[Note],
    line: usize,
    k: usize,
    starts: &[u64],
    row: &[u64],
) -> Result<u64, Refusal>
    requires { Noted false table.now count notes.now }
    ensures { result ≡ lent_peek table.now count line k starts.now row.now }
{
    let mut laid = [[0u32; LAID]; 16385];
    let t = places::lay_out(false, table, count, notes, &mut laid);
    let y = notes::look(notes, line as u64);
    may_peek(t, y, count, k, starts.len(), row.len())?;
    Ok(find(table, count, &laid, starts, row, line, k))
}

// The value of a line's cell at step 0, from the start words and one row: 1, 11, 14, 15, 18; else the value.
pub fn peek(
    table: &[u64],
    count: usize,
    line: usize,
    cell: usize,
    starts: &[u64],
    row: &[u64],
) -> Result<u64, Refusal>
    ensures { told_peek result ≡ peeks table.now count line cell starts.now row.now }
{
    let mut notes = [BLANK; 16385];
    checks::check(false, table, count, &mut notes)?;
    peek_checked(table, count, &notes, line, cell, starts, row)
}
