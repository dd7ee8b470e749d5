// The state words that a run starts from: the start words, taken modulo 2 to their states' widths, and what init lines store. The words of the work area before `all`, or the
// plan's cells, are the lines' cells, those from it on the state words.
#![tactic(auto)]

ghost use Rattle.std.specs.Prelude.{◌≡◌, false, true, List, ℕ, ◌≤◌, ◌+◌, length, drop, Ok};
ghost use Rattle.words.specs.Word.{Width};
ghost use Rattle.tables.specs.Tables.{checked};
ghost use Rattle.tables.specs.Layout.{lines_of};
ghost use Rattle.circuits.specs.Cells.{part, put, mask_words};
ghost use Rattle.circuits.specs.Meaning.{step};
ghost use Rattle.circuits.specs.Model.Work.{num_in, pos_in, wid_in};
ghost use Rattle.circuits.specs.Model.Places.{Ready};
ghost use Rattle.starts.specs.Model.Starting.{has_init};

use area::LAID;
use circuits::Totals;

// What a run goes by: the table with its count, where each line has its cells, and how many there are of what.
#[derive(Clone, Copy)]
pub struct Plan<'a> {
    pub program: bool,
    pub table: &'a [u64],
    pub count: usize,
    pub laid: &'a [[u32; LAID]; 16385],
    pub totals: Totals,
    // The table is accepted, and the list and the counts are those of its lines.
    pub ghost ready: { Ready program table.now count laid.now totals.cells totals.states totals.inputs totals.signals },
}

// A counted record is an init line. All kinds are looked at, so that the compiled code takes several of them at a time.
fn has_init(program: bool, table: &[u64], count: usize) -> bool
    requires { checked program table.now count ≡ Ok tt }
    ensures { result ≡ has_init (lines_of program table.now count) }
{
    let mut found = false;
    for i in 0..count {
        if records::kind(program, table, i) == 6 {
            found = true;
        }
    }
    found
}

// The words of the state on the line n are taken modulo 2 to its width.
fn mask_state(n: usize, laid: &[[u32; LAID]; 16385], all: usize, work: &mut [u64])
    requires { (n ≤ 16384) × (Width (wid_in laid.now n) × (all + pos_in laid.now n + num_in laid.now n ≤ length work.old)) }
    ensures { work.new ≡ put work.old (all + pos_in laid.now n)
        (mask_words (wid_in laid.now n) (part work.old (all + pos_in laid.now n) (num_in laid.now n))) }
{
    let m = area::cells(laid, n);
    let p = area::place(laid, n);
    area::settle(true, work, all + p, m, area::width(laid, n));
}

// Without an init line the start needs no value of any line, and so no input row: the words of each state are masked.
fn mask_starts(plan: Plan, work: &mut [u64])
    requires { (length work.old ≡ plan.totals.cells + plan.totals.states)
        × (has_init (lines_of plan.program plan.table.now plan.count) ≡ false) }
    ensures { (ι : List ℕ) → drop plan.entry.totals.cells work.new
        ≡ (step plan.entry.program true (lines_of plan.entry.program plan.entry.table.now plan.entry.count) (drop plan.entry.totals.cells work.old) ι).sts }
{
    for i in 0..plan.count {
        if records::kind(plan.program, plan.table, i) == 5 {
            mask_state(i + 1, plan.laid, plan.totals.cells, work);
        }
    }
}

// The state words that the run starts from: the start words, then what init lines store.
pub fn begin(plan: Plan, starts: &[u64], row: &[u64], sig: &mut [u8], work: &mut [u64])
    requires { (length work.old ≡ plan.totals.cells + length starts.now)
        × ((length starts.now ≡ plan.totals.states)
        × ((length row.now ≡ plan.totals.inputs) × (length sig.old ≡ plan.totals.signals))) }
    ensures { drop plan.entry.totals.cells work.new
        ≡ (step plan.entry.program true (lines_of plan.entry.program plan.entry.table.now plan.entry.count) starts.now row.now).sts }
{
    area::load_at(work, plan.totals.cells, starts);
    if has_init(plan.program, plan.table, plan.count) {
        walks::walk(
            plan.program,
            true,
            plan.table,
            plan.count,
            plan.laid,
            plan.totals.cells,
            row,
            sig,
            work,
        );
    } else {
        mask_starts(plan, work);
    }
}
