// The ids of the lines read so far are the sixth words of their records, 0 for a not record that stands for a minus operand: an id in the text is looked up in the table itself.
// Places count the records from 1.
#![tactic(auto)]

ghost use Rattle.std.specs.Prelude.{◌≡◌, true, false, ◌≤◌, ◌<◌, length};
ghost use Rattle.tables.specs.Kinds.{row_of};
ghost use Rattle.tables.specs.Lines.{kind_in};
ghost use Rattle.tables.specs.Layout.{held, step_of, ids_of};
ghost use Rattle.tables.specs.Model.Risen.{Risen};
ghost use Rattle.texts.specs.Operands.{place_by_id, meant as meant_by, resolved};
ghost use Rattle.texts.specs.Reading.{last_of};
ghost use Rattle.texts.specs.Model.Searching.{FirstNamed, GoesOn, Parted};

use records::kinds::{NONE, NUM};
use tables::WORDS;

// The id of the last of n records; 0 where there is none.
pub fn last(table: &[u64], n: usize) -> u64
    requires { n ≤ held false (length table.now) }
    ensures { result ≡ last_of 0 (ids_of table.now n) }
{
    if n == 0 {
        return 0;
    }
    let h = records::step(false, table.len());
    records::id(table, h, n - 1)
}

// The first place from i on, counted from 0, whose record has an id that is not 0, or n. h is the list's step.
fn named(table: &[u64], h: usize, n: usize, i: usize) -> usize
    requires { (h ≡ step_of false (length table.now)) × ((i ≤ n) × (n ≤ held false (length table.now))) }
    ensures { FirstNamed (ids_of table.now n) i result }
{
    for o in i..n {
        if records::id(table, h, o) != 0 {
            return o;
        }
    }
    n
}

// Where a search for the id d goes on from the place i, counted from 0: behind the first record from there on that has an id, where that id is below d; else before i, and the answer is i itself.
fn past(table: &[u64], h: usize, n: usize, d: u64, i: usize) -> usize
    requires { (h ≡ step_of false (length table.now)) × ((1 ≤ d) × ((i < n) × Risen table.now n)) }
    ensures { GoesOn (ids_of table.now n) d i result }
{
    let o = named(table, h, n, i);
    if o < n && records::id(table, h, o) < d {
        return o + 1;
    }
    i
}

// The place of the first record from i on, counted from 0, that has an id, where that id is d; else 0. The ids before i are below d; those from i on are not, but for zeros.
fn found_past(table: &[u64], h: usize, n: usize, d: u64, i: usize) -> u64
    requires { (h ≡ step_of false (length table.now)) × ((1 ≤ d) × ((i ≤ n) × (Risen table.now n × Parted (ids_of table.now n) i d))) }
    ensures { result ≡ place_by_id (ids_of table.now n) d }
{
    let o = named(table, h, n, i);
    if o < n && records::id(table, h, o) == d {
        return o as u64 + 1;
    }
    0
}

// The same, where the record is first looked for at i itself: there it stands, unless that is a not record without an id.
fn found(table: &[u64], h: usize, n: usize, d: u64, i: usize) -> u64
    requires { (h ≡ step_of false (length table.now)) × ((1 ≤ d) × ((i ≤ n) × (Risen table.now n × Parted (ids_of table.now n) i d))) }
    ensures { result ≡ place_by_id (ids_of table.now n) d }
{
    if i < n && records::id(table, h, i) == d {
        return i as u64 + 1;
    }
    found_past(table, h, n, d, i)
}

// The place of the record among the first n that has the id d, 0 where none has it: by halves, past the not records whose id is 0.
fn search(table: &[u64], h: usize, n: usize, d: u64) -> u64
    requires { (h ≡ step_of false (length table.now)) × ((1 ≤ d) × Risen table.now n) }
    ensures { result ≡ place_by_id (ids_of table.now n) d }
{
    // std's search by halves wants a list in order: here zeros stand between the ids that rise
    let mut lo: usize = 0;
    let mut hi = n;
    while lo < hi {
        let m = lo + (hi - lo) / 2;
        let v = records::id(table, h, m);
        if d <= v {
            hi = m;
            continue;
        }
        if v != 0 {
            lo = m + 1;
            continue;
        }
        let p = past(table, h, n, d, m);
        if p == m {
            hi = m;
        } else {
            lo = p;
        }
    }
    found(table, h, n, d, lo)
}

// The same, where the record is first looked for at the place d: there it stands in a table without gaps.
fn place_of(table: &[u64], h: usize, n: usize, d: u64) -> u64
    requires { (h ≡ step_of false (length table.now)) × Risen table.now n }
    ensures { result ≡ place_by_id (ids_of table.now n) d }
{
    if d == 0 {
        return 0; // no token names 0
    }
    let i = d - 1;
    if i < n as u64 && records::id(table, h, i as usize) == d {
        return d;
    }
    search(table, h, n, d)
}

// What the number v is in a place of the given class.
fn meant(class: u8, table: &[u64], h: usize, n: usize, v: u64) -> u64
    requires { (h ≡ step_of false (length table.now)) × Risen table.now n }
    ensures { result ≡ meant_by class (ids_of table.now n) v }
{
    if class == NONE || class == NUM { // a plain number stays as it is
        return v;
    }
    place_of(table, h, n, v)
}

// The number v is what it means in a place of the given class: it names no line, or the line at the place v, as all do in a table without gaps and without not records.
fn stays(class: u8, table: &[u64], h: usize, n: usize, v: u64) -> bool
    requires { (h ≡ step_of false (length table.now)) × Risen table.now n }
    ensures { result ≡ true → v ≡ meant_by class (ids_of table.now n) v }
{
    if class == NONE || class == NUM {
        return true;
    }
    v != 0 && v - 1 < n as u64 && records::id(table, h, (v - 1) as usize) == v
}

// A record as it is written has no number that means another; the row is that of its kind.
fn all_stay(row: [u8; 16], rec: [u64; WORDS], table: &[u64], h: usize, n: usize) -> bool
    requires { (row ≡ row_of (kind_in rec)) × ((h ≡ step_of false (length table.now)) × Risen table.now n) }
    ensures { result ≡ true → rec ≡ resolved (ids_of table.now n) rec }
{
    stays(row[11], table, h, n, rec[1])
        && stays(row[13], table, h, n, rec[2])
        && stays(row[14], table, h, n, rec[3])
        && stays(row[15], table, h, n, rec[4])
}

// A record as it is written, with the places of the lines that its numbers name, each looked up; the row is that of the record's kind.
fn look_up(row: [u8; 16], rec: [u64; WORDS], table: &[u64], h: usize, n: usize) -> [u64; WORDS]
    requires { (row ≡ row_of (kind_in rec)) × ((h ≡ step_of false (length table.now)) × Risen table.now n) }
    ensures { result ≡ resolved (ids_of table.now n) rec }
{
    let s = meant(row[11], table, h, n, rec[1]);
    let a = meant(row[13], table, h, n, rec[2]);
    let b = meant(row[14], table, h, n, rec[3]);
    let c = meant(row[15], table, h, n, rec[4]);
    [rec[0], s, a, b, c]
}

// A record as it is written, with the places of the lines that its numbers name, among the first n of the table. The row is that of the record's kind.
pub fn resolve(row: [u8; 16], rec: [u64; WORDS], table: &[u64], n: usize) -> [u64; WORDS]
    requires { (row ≡ row_of (kind_in rec)) × Risen table.now n }
    ensures { result ≡ resolved (ids_of table.now n) rec }
{
    let h = records::step(false, table.len());
    if all_stay(row, rec, table, h, n) {
        return rec;
    }
    look_up(row, rec, table, h, n)
}
