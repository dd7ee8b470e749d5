// Reading a text into a table.
#![tactic(auto)]

mod line; // a line of a text
mod lines; // the lines of a text

ghost use Rattle.std.specs.Prelude.{◌≡◌, [], ◌∷◌, ◌≤◌, ◌+◌, ◌*◌, length, replicate};
ghost use Rattle.tables.specs.Kinds.{rows};
ghost use Rattle.tables.specs.Model.Notes.{Shows};
ghost use Rattle.tables.specs.Types.{no_ctx};
ghost use Rattle.texts.specs.Reading.{lines_read, outcome_of, reads, told_read};

use records::kinds;
use tables::{BLANK, Note, Refusal};
use texts::TextRefusal;

// The lines of a text into a table of zeros. A short text takes a short list for its names, which is cleared for each text; kinds are the rows of all kinds.
fn with_room(
    text: &[u8],
    table: &mut [u64],
    kinds: &[[u8; 16]; 63],
    notes: &mut [Note],
) -> Result<usize, TextRefusal>
    requires { (length text.now ≤ 65536) × ((table.old ≡ replicate (length table.old) 0) × ((length notes.old ≡ 16385)
        × (Shows notes.old no_ctx × (kinds.now ≡ rows)))) }
    ensures { told_read result (table.new ∷ []) ≡ outcome_of (length table.old) (lines_read (length table.old) text.now) }
{
    if text.len() < 1024 {
        read_with::<1409>(text, table, kinds, notes)
    } else if text.len() < 4096 {
        read_with::<2561>(text, table, kinds, notes)
    } else if text.len() < 16384 {
        read_with::<7169>(text, table, kinds, notes)
    } else {
        read_with::<25602>(text, table, kinds, notes)
    }
}

// The same, with a list of N places for the names: 1,025 places and three more for each eight bytes of the text.
fn read_with<const N: usize>(
    text: &[u8],
    table: &mut [u64],
    kinds: &[[u8; 16]; 63],
    notes: &mut [Note],
) -> Result<usize, TextRefusal>
    requires { (8 * 1025 + 3 * (length text.now + 1) ≤ 8 * N) × ((N ≤ 25602) × ((length text.now ≤ 65536) × ((table.old ≡ replicate (length table.old) 0)
        × ((length notes.old ≡ 16385) × (Shows notes.old no_ctx × (kinds.now ≡ rows)))))) }
    ensures { told_read result (table.new ∷ []) ≡ outcome_of (length table.old) (lines_read (length table.old) text.now) }
{
    let mut names = [0u16; N];
    lines::read_lines(text, table, kinds, notes, &mut names)
}

// Reads a text into a table.
pub fn read(text: &[u8], table: &mut [u64]) -> Result<usize, TextRefusal>
    ensures { told_read result (table.new ∷ []) ≡ reads (length table.old) text.now }
{
    records::clear(table);
    if !records::is_table(false, table.len()) {
        return Err(TextRefusal {
            refusal: Refusal::NotATable,
            line: 0,
        });
    }
    if 65536 < text.len() {
        return Err(TextRefusal {
            refusal: Refusal::TextTooLong,
            line: 0,
        });
    }
    let kinds = kinds::all();
    let mut notes = [BLANK; 16385];
    with_room(text, table, &kinds, &mut notes)
}
