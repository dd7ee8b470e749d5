// Words of single lines, and what is kept for a peek.
#![tactic(auto)]

ghost use Rattle.std.specs.Prelude.{◌≡◌, false, ℕ, ◌<◌, ◌%◌, ◌^◌, ◌≤◌, length, get_or, replicate, set};
ghost use Rattle.tables.specs.Lines.{line_of, kind_in, first_in, second_in, third_in};
ghost use Rattle.peeks.specs.Model.Looks.{note_init, init_of, FirstLine, SecondLine, StartAsked, start_in, ValueAsked, ValueFound};
ghost use Rattle.tables.specs.Tables.{checked};
ghost use Rattle.tables.specs.Layout.{held, record_at, lines_of};
ghost use Rattle.words.specs.Word.{Width};
ghost use Rattle.circuits.specs.Model.Work.{pos_in, wid_in};
ghost use Rattle.circuits.specs.Model.Fits.{FitWord};
ghost use Rattle.circuits.specs.Meaning.{op_word};

use area::LAID;
use tables::WORDS;

// An init's record notes the line of its value at its state.
fn note_init(rec: [u64; WORDS], ini: &mut [u64])
    ensures { (q : ℕ) → q < length ini.old → get_or ini.new q 0 ≡ note_init q (get_or ini.old q 0) (line_of rec) }
{
    if rec[0] == 6 && rec[2] < ini.len() as u64 {
        ini[rec[2] as usize] = rec[3];
    }
}

// The record at the place i of a circuit, from 0.
pub fn record(table: &[u64], i: usize) -> [u64; WORDS]
    requires { i < held false (length table.now) }
    ensures { result ≡ record_at false table.now i }
{
    records::record(false, table, records::step(false, table.len()), i)
}

// The line of each state's init value; 0, which is no line, where it has none, as `first` gives it on.
pub fn find_inits(table: &[u64], count: usize, ini: &mut [u64])
    requires { (checked false table.now count ≡ Ok tt) × (ini.old ≡ replicate 65 0) }
    ensures { (q : ℕ) → q < 65 → get_or ini.new q 0 ≡ init_of q (lines_of false table.now count) }
{
    let h = records::step(false, table.len());
    for i in 0..count {
        let rec = records::record(false, table, h, i);
        note_init(rec, ini);
    }
}

// The line that is looked at first for the word of a line, or for a cell: the value of a state's init, d, the index of a read or of a write, else the first operand;
// 0, which is no line, for a constant and for an input.
pub fn first(rec: [u64; WORDS], d: u64) -> usize
    ensures { FirstLine rec d result }
{
    match rec[0] {
        0..=4 => 0,
        5 => d as usize,
        54..=55 => rec[3] as usize,
        _ => rec[2] as usize,
    }
}

// The line that is looked at next, where the first one's word is x: the second operand, what an ite takes, the array of a read or of a write; 0 where one word is all.
pub fn second(rec: [u64; WORDS], x: u64) -> usize
    ensures { SecondLine rec x result }
{
    match rec[0] {
        0..=20 => 0,
        53 => evaluation::chosen(x, rec[3] as usize, rec[4] as usize),
        54..=55 => rec[2] as usize,
        _ => rec[3] as usize,
    }
}

// The word v of the line n is kept.
pub fn keep(kept: &mut [Option<u64>; 65], n: usize, v: u64) -> u64
    requires { n ≤ 64 }
    ensures { (result ≡ v) × (kept.new ≡ set kept.old n (Some v)) }
{
    kept[n] = Some(v);
    v
}

// The word of the input on the line n.
fn input_word(n: usize, laid: &[[u32; LAID]; 16385], row: &[u64]) -> u64
    requires { (n ≤ 16384) × ((pos_in laid.now n < length row.now) × Width (wid_in laid.now n)) }
    ensures { result ≡ get_or row.now (pos_in laid.now n) 0 % 2 ^ wid_in laid.now n }
{
    let p = area::place(laid, n);
    let v = row[p];
    operators::low(area::width(laid, n), v)
}

// The start word of the cell k of the state on the line n.
pub fn start_word(n: usize, k: usize, laid: &[[u32; LAID]; 16385], starts: &[u64]) -> u64
    requires { StartAsked laid.now starts.now n k }
    ensures { result ≡ start_in laid.now starts.now n k }
{
    let p = area::place(laid, n) + k;
    let v = starts[p];
    operators::low(area::width(laid, n), v)
}

// The word of the state on the line n: that of its init's value, x, or its start word where the value's line, a, is 0.
fn state_word(n: usize, a: usize, laid: &[[u32; LAID]; 16385], starts: &[u64], x: u64) -> u64
    requires { a ≡ 0 → StartAsked laid.now starts.now n 0 }
    ensures { (a ≡ 0 → result ≡ start_in laid.now starts.now n 0) × ((a ≡ 0 → ⊥) → result ≡ x) }
{
    if a == 0 {
        start_word(n, 0, laid, starts)
    } else {
        x
    }
}

// An operator of one word, v, on the line n.
fn unary(rec: [u64; WORDS], n: usize, laid: &[[u32; LAID]; 16385], v: u64) -> u64
    requires { (n ≤ 16384) × ((first_in rec ≤ 16384) × FitWord false (kind_in rec) (wid_in laid.now n) (wid_in laid.now (first_in rec)) 64 v (second_in rec) (third_in rec)) }
    ensures { result ≡ op_word false (kind_in rec) (wid_in laid.now (first_in rec)) 64 v (second_in rec) (third_in rec) }
{
    evaluation::unary_word(false, rec[0], rec[2] as usize, v, rec[3], rec[4], n, laid)
}

// An operator of two words, x and y, on the line n.
fn binary(rec: [u64; WORDS], n: usize, laid: &[[u32; LAID]; 16385], x: u64, y: u64) -> u64
    requires { (n ≤ 16384) × ((first_in rec ≤ 16384) × ((second_in rec ≤ 16384)
        × FitWord false (kind_in rec) (wid_in laid.now n) (wid_in laid.now (first_in rec)) (wid_in laid.now (second_in rec)) x y 0)) }
    ensures { result ≡ op_word false (kind_in rec) (wid_in laid.now (first_in rec)) (wid_in laid.now (second_in rec)) x y 0 }
{
    evaluation::binary_word(
        false,
        rec[0],
        rec[2] as usize,
        rec[3] as usize,
        x,
        y,
        n,
        laid,
    )
}

// The word of the constant or of the input on the line n.
fn given(rec: [u64; WORDS], n: usize, laid: &[[u32; LAID]; 16385], row: &[u64]) -> u64
    requires { (kind_in rec ≡ 3 → ⊥) → (n ≤ 16384) × ((pos_in laid.now n < length row.now) × Width (wid_in laid.now n)) }
    ensures { (kind_in rec ≡ 3 → result ≡ first_in rec)
        × ((kind_in rec ≡ 3 → ⊥) → result ≡ get_or row.now (pos_in laid.now n) 0 % 2 ^ wid_in laid.now n) }
{
    if rec[0] == 3 {
        rec[2]
    } else {
        input_word(n, laid, row)
    }
}

// The word of the line n, whose operands are words: x and y are those of the lines that are looked at first and next, the first one being on the line a.
pub fn value(
    rec: [u64; WORDS],
    n: usize,
    a: usize,
    laid: &[[u32; LAID]; 16385],
    starts: &[u64],
    row: &[u64],
    x: u64,
    y: u64,
) -> u64
    requires { ValueAsked laid.now starts.now row.now rec n a x y }
    ensures { ValueFound laid.now starts.now row.now rec n a x y result }
{
    let k = rec[0];
    match k {
        0..=4 => given(rec, n, laid, row),
        5 => state_word(n, a, laid, starts, x),
        6..=20 => unary(rec, n, laid, x),
        21..=22 => evaluation::says(k == 21, x == y),
        53 => y,
        _ => binary(rec, n, laid, x, y),
    }
}
