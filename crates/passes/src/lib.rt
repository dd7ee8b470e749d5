// The passes over a table: array sorts, needing uses, the number of instructions, the instructions.
#![tactic(auto)]

ghost use Rattle.std.specs.Prelude.{◌≡◌, true, false, ◌+◌, ◌-◌, ◌≤◌, ◌<◌, replicate, length};
ghost use Rattle.tables.specs.Tables.{checked};
ghost use Rattle.tables.specs.Layout.{held, lines_of};
ghost use Rattle.programs.specs.Translation.{has_array};
ghost use Rattle.programs.specs.Answers.{program_of};
ghost use Rattle.programs.specs.Model.Passes.{Zeroed, emitted_to, Prepared, Fitted, program_in};

use programs::Known;
use tables::WORDS;
use uses::entries;

// A counted record is an array sort. All kinds are looked at, so that the compiled code takes several of them at a time.
pub fn has_array(table: &[u64], count: usize) -> bool
    requires { checked false table.now count ≡ Ok tt }
    ensures { result ≡ has_array (lines_of false table.now count) }
{
    let mut found = false;
    for i in 0..count {
        if records::kind(false, table, i) == 2 {
            found = true;
        }
    }
    found
}

// A mark at each line that has a needing use.
pub fn needing(table: &[u64], count: usize, marks: &mut [bool])
    requires { (checked false table.now count ≡ Ok tt) × (marks.old ≡ replicate 16385 false) }
    ensures { Prepared table.now count marks.new }
{
    let h = records::step(false, table.len());
    for i in 0..count {
        let rec = records::record(false, table, h, i);
        uses::mark(rec, marks);
    }
}

// How many instructions the program has.
pub fn count_all(table: &[u64], count: usize, marks: &[bool], known: &mut [Known]) -> usize
    requires { Prepared table.now count marks.now × Zeroed count known.old }
    ensures { result ≡ length (program_of table.now count) }
{
    let h = records::step(false, table.len());
    let mut b: usize = 1;
    for i in 0..count {
        let rec = records::record(false, table, h, i);
        let n = (i + 1) as u64;
        let need = entries::at(marks, n, false);
        let m = masks::take(rec, n, need, b as u64, known);
        b += masks::emitted(rec[0], m);
    }
    b - 1
}

// The e instructions of a line go to the target: the instruction, of width w, at the number b, and its mask.
fn emit(e: usize, ins: [u64; WORDS], w: u64, b: usize, target: &mut [u64])
    requires { (1 ≤ b) × ((b < 65536) × ((e ≤ 2) × (b - 1 + e ≤ held true (length target.old)))) }
    ensures { target.new ≡ emitted_to e ins w b target.old }
{
    if e == 0 {
        return;
    }
    records::put(true, target, b - 1, ins);
    if e == 2 {
        records::put(true, target, b, records::of(56, w, b as u64, 0, 0));
    }
}

// The instructions go to the target.
pub fn write_all(
    table: &[u64],
    count: usize,
    marks: &[bool],
    known: &mut [Known],
    target: &mut [u64],
)
    requires { Fitted table.now count marks.now target.old × Zeroed count known.old }
    ensures { target.new ≡ program_in table.now count (length target.old) }
{
    let h = records::step(false, table.len());
    let mut b: usize = 1;
    for i in 0..count {
        let rec = records::record(false, table, h, i);
        let n = (i + 1) as u64;
        let need = entries::at(marks, n, false);
        let ins = masks::instruction(rec, known);
        let w = masks::of_line(known, rec[1]).width;
        let m = masks::take(rec, n, need, b as u64, known);
        let e = masks::emitted(rec[0], m);
        emit(e, ins, w, b, target);
        b += e;
    }
}
