// The lines of a text, one after the other.
ghost use Rattle.std.specs.Prelude.{◌≡◌, [], ◌∷◌, ◌≤◌, length, replicate};
ghost use Rattle.tables.specs.Kinds.{rows};
ghost use Rattle.tables.specs.Model.Notes.{Shows};
ghost use Rattle.tables.specs.Types.{no_ctx};
ghost use Rattle.texts.specs.Reading.{lines_read, outcome_of, told_read};
ghost use Rattle.texts.specs.Model.Chains.{Ample};

use crate::line;
use tables::Note;
use texts::TextRefusal;

// The lines of a text, into a table of zeros; kinds are the rows of all kinds, and the names are kept in a list of zeros.
pub fn read_lines(
    text: &[u8],
    table: &mut [u64],
    kinds: &[[u8; 16]; 63],
    notes: &mut [Note],
    names: &mut [u16],
) -> Result<usize, TextRefusal>
    requires { (length text.now ≤ 65536) × ((table.old ≡ replicate (length table.old) 0) × ((length notes.old ≡ 16385)
        × (Shows notes.old no_ctx × ((kinds.now ≡ rows) × ((names.old ≡ replicate (length names.old) 0) × Ample text.now names.old))))) }
    ensures { told_read result (table.new ∷ [])
        ≡ outcome_of (length table.old) (lines_read (length table.old) text.now) }
{
    let room = records::room_of(false, table.len());
    // a `while`: the place goes from line to line, whose ends the search finds
    let mut i: usize = 0;
    let mut n: usize = 0;
    let mut line: usize = 1;
    while i < text.len() {
        let e = tokens::find_far(text, i, 10);
        let z = tokens::cut(text, i, e);
        let read = line::read_line(&text[i..z], kinds, table, n, room, notes);
        let admitted = line::admit(text, i, read, n, room, names);
        i = tokens::after(e, text.len());
        match admitted {
            Ok(given) => {
                line += 1;
                if let Some((own, id)) = given {
                    n = line_records::put_line(table, n, own.rec, own.minus, id, notes);
                }
            }
            Err(refusal) => {
                records::clear(table);
                return Err(TextRefusal { refusal, line });
            }
        }
    }
    Ok(n)
}
