// The walk over all lines, as a run starts and at each step. The words of the work area before `all` are the lines' cells, those from it on the state words.
#![tactic(auto)]

ghost use Rattle.std.specs.Prelude.{◌≡◌, false, ◌≤◌, ◌+◌, ◌<◌, length, drop};
ghost use Rattle.tables.specs.Lines.{line_of};
ghost use Rattle.tables.specs.Layout.{held, step_of, record_at, lines_of};
ghost use Rattle.circuits.specs.Meaning.{step};
ghost use Rattle.circuits.specs.Run.{bytes_of};
ghost use Rattle.circuits.specs.Model.Work.{work_in, sigs_in};
ghost use Rattle.circuits.specs.Model.Fits.{FitL};
ghost use Rattle.circuits.specs.Model.Places.{Ready};

use area::LAID;

// The line at the place i of the table, whose step is h. A line of words is computed in place, without its sort, the record's second word; the record is read again for a line of cells.
// Of that two calls are written, one for each value of `first`: the function called stays out of the walk, whose registers its loops would take.
fn line(
    program: bool,
    first: bool,
    table: &[u64],
    h: usize,
    i: usize,
    laid: &[[u32; LAID]; 16385],
    all: usize,
    row: &[u64],
    sig: &mut [u8],
    work: &mut [u64],
)
    requires { ((i < held program (length table.now)) × (h ≡ step_of program (length table.now))) × ((i < 16384)
        × FitL program laid.now all (length row.now) (length sig.old) work.old (i + 1) (line_of (record_at program table.now i))) }
    ensures { (work.new ≡ work_in program first laid.now all row.now work.old (i + 1) (line_of (record_at program table.now i)))
        × (sig.new ≡ sigs_in first laid.now sig.old work.old (i + 1) (line_of (record_at program table.now i))) }
{
    let rec = records::record(program, table, h, i);
    if word_dispatch::line(program, first, rec, i + 1, laid, all, row, sig, work) {
        return;
    }
    let whole = records::record(program, table, h, i);
    if first {
        step_dispatch::line(program, true, whole, i + 1, laid, all, row, sig, work);
    } else {
        step_dispatch::line(program, false, whole, i + 1, laid, all, row, sig, work);
    }
}

// All lines, in order. A state line reads its state words and a next line stores there, while other lines read the cells: all next values are set together.
pub fn walk(
    program: bool,
    first: bool,
    table: &[u64],
    count: usize,
    laid: &[[u32; LAID]; 16385],
    all: usize,
    row: &[u64],
    sig: &mut [u8],
    work: &mut [u64],
)
    requires { (all ≤ length work.old) × Ready program table.now count laid.now all (length (drop all work.old)) (length row.now) (length sig.old) }
    ensures { (drop all work.new ≡ (step program first (lines_of program table.now count) (drop all work.old) row.now).sts)
        × (first ≡ false → sig.new ≡ bytes_of (step program first (lines_of program table.now count) (drop all work.old) row.now).sigs) }
{
    let h = records::step(program, table.len());
    for i in 0..count {
        line(program, first, table, h, i, laid, all, row, sig, work);
    }
}
