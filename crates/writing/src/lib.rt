// Writing: bytes go to a text one after the other. A byte past the end of the text is counted and dropped.
#![tactic(auto)]

ghost use Rattle.std.specs.Prelude.{◌≡◌, [], ◌∷◌, ◌++◌, true, false, ◌+◌, ◌^◌, ◌<◌, ◌≤◌, set, length, get_or};
ghost use Rattle.std.proofs.lemmas.List.Edits.{sets};
ghost use Rattle.texts.specs.Decimal.{digits};
ghost use Rattle.tables.specs.Kinds.{word_of, row_of, rows};
ghost use Rattle.texts.specs.Split.{spaced, join};
ghost use Rattle.texts.specs.Writing.{kind_tokens, numbers, tokens_of, write_text, writes};
ghost use Rattle.tables.specs.Lines.{kind_in};
ghost use Rattle.tables.specs.Layout.{record_words, room, records_of};
ghost use Rattle.tables.specs.Types.{no_ctx};
ghost use Rattle.tables.specs.Tables.{lawful};
ghost use Rattle.tables.specs.Answers.{told};

use records::{bytes, kinds};
use tables::{Refusal, WORDS};

// One byte at a place of the text, where there is room.
pub fn put(out: &mut [u8], at: usize, b: u8) -> usize
    requires { at < 2 ^ 63 }
    ensures { (result ≡ at + 1) × (out.new ≡ set out.old at b) }
{
    if at < out.len() {
        out[at] = b;
    }
    at + 1
}

// The decimal digits of v.
fn put_number(out: &mut [u8], at: usize, v: u64) -> usize
    requires { at + length (digits v) < 2 ^ 63 }
    ensures { (result ≡ at + length (digits v)) × (out.new ≡ sets out.old at (digits v)) }
{
    if 9 < v {
        let p = put_number(out, at, v / 10);
        return put(out, p, (48 + v % 10) as u8);
    }
    put(out, at, (48 + v) as u8)
}

// The word of a row.
pub fn put_word(out: &mut [u8], at: usize, r: [u8; 16]) -> usize
    requires { (get_or r 0 0 ≤ 10) × (at + length (word_of r) < 2 ^ 63) }
    ensures { (result ≡ at + length (word_of r)) × (out.new ≡ sets out.old at (word_of r)) }
{
    let mut p = at;
    for letter in &r[1..1 + usize::from(r[0])] {
        p = put(out, p, *letter);
    }
    p
}

// The word of the kind k, whose row is r, or two words for a sort, with a space before each.
fn put_kind(out: &mut [u8], at: usize, k: u64, r: [u8; 16]) -> usize
    requires { (1 ≤ k) × ((k ≤ 63) × ((r ≡ row_of k) × (at + length (spaced (kind_tokens k)) < 2 ^ 63))) }
    ensures { (result ≡ at + length (spaced (kind_tokens k))) × (out.new ≡ sets out.old at (spaced (kind_tokens k))) }
{
    if k <= 2 {
        let a = put(out, at, 32);
        let b = put_word(
            out,
            a,
            [4, 115, 111, 114, 116, 0, 0, 0, 0, 0, 0, 0, 0, 0, 0, 0],
        );
        let p = put(out, b, 32);
        return put_word(out, p, r);
    }
    let p = put(out, at, 32);
    put_word(out, p, r)
}

// m numbers of a record from the place j on, with a space before each.
pub fn put_numbers(out: &mut [u8], at: usize, m: usize, j: usize, rec: [u64; WORDS]) -> usize
    requires { (j + m ≤ record_words) × (at + length (spaced (numbers m j rec)) < 2 ^ 63) }
    ensures { (result ≡ at + length (spaced (numbers m j rec))) × (out.new ≡ sets out.old at (spaced (numbers m j rec))) }
{
    let mut p = at;
    for v in &rec[j..j + m] {
        p = put(out, p, 32);
        p = put_number(out, p, *v);
    }
    p
}

// The line of a record, with its LF.
fn put_line(kinds: &[[u8; 16]; 63], out: &mut [u8], at: usize, id: u64, rec: [u64; WORDS]) -> usize
    requires { (kinds.now ≡ rows) × ((1 ≤ kind_in rec) × ((kind_in rec ≤ 63) × (at + length (join (tokens_of id rec) ++ (10 ∷ [])) < 2 ^ 63))) }
    ensures { (result ≡ at + length (join (tokens_of id rec) ++ (10 ∷ []))) × (out.new ≡ sets out.old at (join (tokens_of id rec) ++ (10 ∷ []))) }
{
    let k = rec[0];
    let row = kinds::row_of(kinds, k);
    let s = forms::sorted(row);
    let c = row[12] as usize;
    let a = put_number(out, at, id);
    let b = put_kind(out, a, k, row);
    let d = put_numbers(out, b, s + c, 2 - s, rec);
    put(out, d, 10)
}

// The lines of the first `count` records, which keep the rules.
fn put_lines(out: &mut [u8], table: &[u64], count: usize) -> usize
    requires { (count ≤ room false (length table.now)) × (lawful false no_ctx (records_of false table.now count) ≡ true) }
    ensures { (result ≡ length (write_text (records_of false table.now count)))
        × (out.new ≡ sets out.old 0 (write_text (records_of false table.now count))) }
{
    let kinds = kinds::all();
    let h = records::step(false, table.len());
    let mut at = 0;
    for p in 0..count {
        let rec = records::record(false, table, h, p);
        at = put_line(&kinds, out, at, (p + 1) as u64, rec);
    }
    at
}

// Writes the first `count` records of a table as text.
pub fn write(table: &[u64], count: usize, text: &mut [u8]) -> Result<usize, Refusal>
    ensures { told result (text.new ∷ []) ≡ writes table.now count (length text.old) }
{
    bytes::clear(text);
    checks::accept(false, table, count)?;
    let n = put_lines(text, table, count);
    if text.len() < n {
        bytes::clear(text);
        return Err(Refusal::TextBuffer);
    }
    Ok(n)
}
