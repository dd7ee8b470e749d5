// The flat program over lists that are lent: a text becomes the flat text, or `refused N L`.
#![tactic(auto)]

ghost use Rattle.std.specs.Prelude.{◌≡◌, [], ◌∷◌, length};
ghost use Rattle.std.proofs.lemmas.List.Edits.{sets};
ghost use Rattle.tables.specs.Refusals.{number_of};
ghost use Rattle.tables.specs.Answers.{told};
ghost use Rattle.texts.specs.Writing.{write_table};
ghost use Rattle.flat_text.specs.Printing.{refusal_line, refusal_in, after_writing, after_flattening, prints};
ghost use Rattle.flat_text.specs.Model.Output.{Printout};

use records::bytes;
use records::kinds::letters::*;
use tables::Refusal;

// The word `refused`, as the rows of kinds have theirs.
const REFUSED: [u8; 16] = [7, R, E, F, U, S, E, D, 0, 0, 0, 0, 0, 0, 0, 0];

// `refused N L` and LF from the start of the output list; a byte past its end is counted and dropped.
fn put_refusal(out: &mut [u8], number: u64, line: u64) -> usize
    ensures { (result ≡ length (refusal_line number line)) × (out.new ≡ sets out.old 0 (refusal_line number line)) }
{
    let a = writing::put_word(out, 0, REFUSED);
    let b = writing::put_numbers(out, a, 2, 0, [number, line, 0, 0, 0]);
    writing::put(out, b, 10)
}

// A refusal: its line, or nothing where that has no room.
fn refuse(r: Refusal, line: usize, out: &mut [u8]) -> usize
    ensures { Printout (length out.old) (refusal_in (length out.old) (number_of r) line) result out.new }
{
    bytes::clear(out);
    let n = put_refusal(out, u64::from(r), line as u64);
    if out.len() < n {
        bytes::clear(out);
        return 0;
    }
    n
}

// The text of a flat table with its count, or why it is not written.
fn print(flat: &[u64], count: usize, out: &mut [u8]) -> usize
    ensures { Printout (length out.old)
        (after_writing (length out.old) (write_table flat.now count (length out.old))) result out.new }
{
    match writing::write(flat, count, out) {
        Ok(n) => n,
        Err(r) => refuse(r, 0, out),
    }
}

// What is printed after flattening, by its answer and the target that it left.
fn print_flat(a: Result<usize, Refusal>, flat: &[u64], out: &mut [u8]) -> usize
    ensures { Printout (length out.old) (after_flattening (length out.old) a flat.now) result out.new }
{
    match a {
        Ok(m) => print(flat, m, out),
        Err(r) => refuse(r, 0, out),
    }
}

// Reads the text into the table, flattens that into the target, and leaves the flat text in the output list, or `refused N L` and LF; answers how many bytes.
pub fn flat(text: &[u8], table: &mut [u64], target: &mut [u64], out: &mut [u8]) -> usize
    ensures { told (Ok result) (table.new ∷ target.new ∷ out.new ∷ [])
        ≡ prints (length table.old) (length target.old) (length out.old) text.now }
{
    match reading::read(text, table) {
        Err(e) => {
            records::clear(target);
            refuse(e.refusal, e.line, out)
        }
        Ok(count) => {
            let a = flatten::flatten(table, count, target);
            print_flat(a, target, out)
        }
    }
}
