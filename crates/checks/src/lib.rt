// The check of a table with its count: a circuit's (1, 11) and a program's (1, 20).
#![tactic(auto)]

ghost use Rattle.std.specs.Prelude.{◌≡◌, true, false, ◌||◌, ◌≤◌, ◌<◌, length};
ghost use Rattle.tables.specs.Tables.{known as known_of, unused as unused_of, tidy as tidy_of, keeps, lawful, checked, broken};
ghost use Rattle.tables.specs.Pick.{all, inside};
ghost use Rattle.tables.specs.Lines.{line_of, kind_in, first_in};
ghost use Rattle.tables.specs.Layout.{held, records_of, lines_of};
ghost use Rattle.tables.specs.Ids.{ids_right};
ghost use Rattle.tables.specs.Types.{record_type, no_ctx, context};
ghost use Rattle.tables.specs.Model.Notes.{look_in, noted, given_in, Shows, Fresh};
ghost use Rattle.tables.specs.Kinds.{rows};

use records::kinds::{NONE, NOT};
use records::{ids, kinds, notes};
use tables::{BLANK, Note, Refusal, Ty, WORDS};

// The kind is one from `first` to `last`, or from `again` to 63.
fn listed(k: u64, first: u64, last: u64, again: u64) -> bool
    ensures { result ≡ (inside first last k || inside again 63 k) }
{
    (first <= k && k <= last) || (again <= k && k <= 63)
}

// The kind is one of a circuit, or of a program.
fn known(program: bool, k: u64) -> bool
    ensures { result ≡ known_of program k }
{
    if program {
        listed(k, 3, 53, 56)
    } else {
        listed(k, 1, 55, 57)
    }
}

// A place that the line does not have holds 0.
fn unused(k: u8, x: u64) -> bool
    ensures { result ≡ unused_of k x }
{
    k != NONE || x == 0
}

// The places that the row lacks hold 0.
fn tidy(row: [u8; 16], rec: [u64; WORDS]) -> bool
    ensures { result ≡ all (tidy_of row rec) }
{
    unused(kinds::sort_class(row), rec[1])
        && unused(kinds::first_class(row), rec[2])
        && unused(kinds::second_class(row), rec[3])
        && unused(kinds::third_class(row), rec[4])
}

// The type of a record that keeps the rules, after the lines noted.
fn type_in(program: bool, rec: [u64; WORDS], notes: &[Note]) -> Ty
    requires { kind_in rec ≡ 1 → first_in rec ≤ 64 }
    ensures { result ≡ record_type program (look_in notes.now) rec (line_of rec) }
{
    let t = types::sort_at(program, notes, rec[1]);
    let a = notes::look(notes, rec[2]);
    let b = notes::look(notes, rec[3]);
    let c = notes::look(notes, rec[4]);
    types::type_of(rec, t, a, b, c)
}

// The line n, whose record keeps the rules, is noted.
pub fn note(program: bool, rec: [u64; WORDS], n: u64, notes: &mut [Note])
    requires { kind_in rec ≡ 1 → first_in rec ≤ 64 }
    ensures { notes.new ≡ noted program rec n notes.old }
{
    let y = type_in(program, rec, notes);
    notes::put_type(notes, n, y);
    notes::flag(true, 6, rec, notes);
    notes::flag(false, 7, rec, notes);
}

// The record breaks no rule after the lines noted.
fn keeps_rules(program: bool, kinds: &[[u8; 16]; 63], rec: [u64; WORDS], notes: &[Note]) -> bool
    requires { kinds.now ≡ rows }
    ensures { result ≡ keeps program (look_in notes.now) (given_in notes.now) rec }
{
    let k = rec[0];
    if !known(program, k) {
        return false;
    }
    let row = kinds::row_of(kinds, k);
    tidy(row, rec) && rules::fault(program, row, rec, notes).is_ok()
}

// The record of the line n breaks no rule after the lines noted; then it is noted too.
fn take_record(
    program: bool,
    kinds: &[[u8; 16]; 63],
    rec: [u64; WORDS],
    n: u64,
    notes: &mut [Note],
) -> bool
    requires { kinds.now ≡ rows }
    ensures { (result ≡ keeps program (look_in notes.old) (given_in notes.old) rec)
        × (result ≡ true → notes.new ≡ noted program rec n notes.old) }
{
    if !keeps_rules(program, kinds, rec, notes) {
        return false;
    }
    note(program, rec, n, notes);
    true
}

// Every record breaks no rule, after those before it; then all are noted.
fn lines(
    program: bool,
    kinds: &[[u8; 16]; 63],
    table: &[u64],
    count: usize,
    notes: &mut [Note],
) -> bool
    requires { (kinds.now ≡ rows) × ((count ≤ 16384) × ((count ≤ held program (length table.now)) × ((count < length notes.old) × Shows notes.old no_ctx))) }
    ensures { (result ≡ lawful program no_ctx (records_of program table.now count))
        × (result ≡ true → Shows notes.new (context program (lines_of program table.now count))) }
{
    let h = records::step(program, table.len());
    for i in 0..count {
        let rec = records::record(program, table, h, i);
        if !take_record(program, kinds, rec, (i + 1) as u64, notes) {
            return false;
        }
    }
    true
}

// The ids of a circuit's records keep their rules; a program has none.
fn ids_right(program: bool, table: &[u64], count: usize) -> bool
    requires { count ≤ held program (length table.now) }
    ensures { result ≡ ids_right program table.now count }
{
    program || ids_rise(table, count)
}

// Of so many records only not records hold id 0, and the other ids rise.
fn ids_rise(table: &[u64], count: usize) -> bool
    requires { count ≤ held false (length table.now) }
    ensures { result ≡ ids_right false table.now count }
{
    let h = records::step(false, table.len());
    let mut last: u64 = 0;
    for i in 0..count {
        let d = records::id(table, h, i);
        if d != 0 {
            if !ids::follows(last, d) {
                return false;
            }
            last = d;
        } else if records::kind(false, table, i) != NOT {
            return false;
        }
    }
    true
}

// The check of a table with its count. Where it is accepted the notes, blank before, hold its context.
pub fn check(program: bool, table: &[u64], count: usize, notes: &mut [Note]) -> Result<(), Refusal>
    requires { Fresh count notes.old }
    ensures { (result ≡ checked program table.now count)
        × (result ≡ Ok tt → Shows notes.new (context program (lines_of program table.now count))) }
{
    if !records::is_table(program, table.len()) {
        return Err(Refusal::NotATable);
    }
    if records::room_of(program, table.len()) < count {
        return Err(broken(program));
    }
    if !ids_right(program, table, count) {
        return Err(broken(program));
    }
    let kinds = kinds::all();
    if !lines(program, &kinds, table, count, notes) {
        return Err(broken(program));
    }
    Ok(())
}

// The answer of the check alone. A small table takes a small list, which is sooner blank.
pub fn accept(program: bool, table: &[u64], count: usize) -> Result<(), Refusal>
    ensures { result ≡ checked program table.now count }
{
    if count < 512 {
        return accept_in::<512>(program, table, count);
    }
    accept_in::<16385>(program, table, count)
}

// The same, with a list that has room for N - 1 records: for all that count, or for all that a table may have.
fn accept_in<const N: usize>(program: bool, table: &[u64], count: usize) -> Result<(), Refusal>
    requires { (count ≤ 16384 → count < N) × (N ≤ 16385) }
    ensures { result ≡ checked program table.now count }
{
    let mut notes = [BLANK; N];
    check(program, table, count, &mut notes)
}

// 11, for a program 20.
pub fn broken(program: bool) -> Refusal
    ensures { result ≡ broken program }
{
    if program {
        Refusal::BadProgram
    } else {
        Refusal::BadTable
    }
}
