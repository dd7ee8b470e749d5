// The program of an accepted table, where it fits.
ghost use Rattle.std.specs.Prelude.{◌≡◌, false, [], ◌∷◌, ◌≤◌, ◌<◌, length, replicate};
ghost use Rattle.tables.specs.Tables.{checked};
ghost use Rattle.tables.specs.Answers.{told};
ghost use Rattle.programs.specs.Answers.{program_of};
ghost use Rattle.programs.specs.Model.Passes.{Prepared, Fitted, program_in, makes};

use programs::NONE_KNOWN;
use tables::Refusal;

// How many entries a list of lines has: for a small circuit, whose list is sooner empty, and for the largest.
const FEW: usize = 512;

const MANY: usize = 16385;

// How many instructions the program has, by a list of N entries. A function that makes a list pays for its size at the start, so a small circuit and a large one have each their own.
fn count_in<const N: usize>(table: &[u64], count: usize, marks: &[bool]) -> usize
    requires prepared { Prepared table.now count marks.now }
    requires room { (count < N) × (N ≤ MANY) }
    ensures { result ≡ length (program_of table.now count) }
{
    let mut known = [NONE_KNOWN; N];
    passes::count_all(table, count, marks, &mut known)
}

// The same, by a list that is large enough.
fn counting(table: &[u64], count: usize, marks: &[bool]) -> usize
    requires { Prepared table.now count marks.now }
    ensures { result ≡ length (program_of table.now count) }
{
    if count < FEW {
        count_in::<FEW>(table, count, marks)
    } else {
        count_in::<MANY>(table, count, marks)
    }
}

// The instructions go to the target, by a list of N entries.
fn write_in<const N: usize>(table: &[u64], count: usize, marks: &[bool], target: &mut [u64])
    requires fitted { Fitted table.now count marks.now target.old }
    requires room { (count < N) × (N ≤ MANY) }
    ensures { target.new ≡ program_in table.now count (length target.old) }
{
    let mut known = [NONE_KNOWN; N];
    passes::write_all(table, count, marks, &mut known, target);
}

// The same, by a list that is large enough.
fn writing(table: &[u64], count: usize, marks: &[bool], target: &mut [u64])
    requires { Fitted table.now count marks.now target.old }
    ensures { target.new ≡ program_in table.now count (length target.old) }
{
    if count < FEW {
        write_in::<FEW>(table, count, marks, target);
    } else {
        write_in::<MANY>(table, count, marks, target);
    }
}

// The program of an accepted table, where it fits into the target, which is zero.
pub fn make(table: &[u64], count: usize, target: &mut [u64]) -> Result<usize, Refusal>
    requires { (checked false table.now count ≡ Ok tt) × (target.old ≡ replicate (length target.old) 0) }
    ensures { told result (target.new ∷ []) ≡ makes table.now count (length target.old) }
{
    let mut marks = [false; MANY];
    passes::needing(table, count, &mut marks);
    let m = counting(table, count, &marks);
    if records::room_of(true, target.len()) < m {
        return Err(Refusal::TargetTooSmall);
    }
    writing(table, count, &marks, target);
    Ok(m)
}
