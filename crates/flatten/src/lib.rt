// Flattening: a circuit with arrays becomes a circuit of words alone.
#![tactic(auto)]

mod whole; // the pass over the lines

ghost use Rattle.std.specs.Prelude.{◌≡◌, [], ◌∷◌, ◌≤◌, ◌<◌, length};
ghost use Rattle.tables.specs.Answers.{told};
ghost use Rattle.flattening.specs.Answers.{flattens};
ghost use Rattle.flattening.specs.Model.Start.{Clear, Blank};

use flat_cells::cells::KEPT;
use tables::{BLANK, Note, Refusal};

// The entries of the lists of a small circuit, and of any other: one more than it may have lines.
const FEW: usize = 512;

const MANY: usize = 16385;

// The flat circuit of a table goes to the target. A small circuit takes small lists, which are sooner zero.
pub fn flatten(table: &[u64], count: usize, target: &mut [u64]) -> Result<usize, Refusal>
    ensures { told result (target.new ∷ []) ≡ flattens table.now count (length target.old) }
{
    records::clear(target);
    if !records::is_table(false, table.len()) || !records::is_table(false, target.len()) {
        return Err(Refusal::NotATable);
    }
    if count < FEW {
        flatten_in::<FEW>(table, count, target)
    } else {
        flatten_in::<MANY>(table, count, target)
    }
}

// In lists of N entries: more than the lines of a table that is accepted.
fn flatten_in<const N: usize>(
    table: &[u64],
    count: usize,
    target: &mut [u64],
) -> Result<usize, Refusal>
    requires clear { Clear table.now target.old }
    requires more { count ≤ 16384 → count < N }
    requires few { N ≤ 65536 }
    ensures { told result (target.new ∷ []) ≡ flattens table.now count (length target.old) }
{
    let mut notes = [BLANK; N];
    let mut kept = [[0u32; KEPT]; N];
    checked(table, count, &mut notes, &mut kept, target)
}

// The table is checked, and then its lines are made flat.
fn checked(
    table: &[u64],
    count: usize,
    notes: &mut [Note],
    kept: &mut [[u32; KEPT]],
    target: &mut [u64],
) -> Result<usize, Refusal>
    requires { Blank table.now count notes.old kept.old target.old }
    ensures { told result (target.new ∷ []) ≡ flattens table.now count (length target.old) }
{
    checks::check(false, table, count, notes)?;
    whole::all_lines(table, count, notes, kept, target)
}
