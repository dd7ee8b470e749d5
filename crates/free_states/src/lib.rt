// States that nobody drives: their lines, found once for a run, and their words from the row of each step after the first.
#![tactic(auto)]

ghost use Rattle.std.specs.Prelude.{◌≡◌, false, List, ◌++◌, ℕ, ◌≤◌, ◌+◌, ◌<◌, length, take, drop};
ghost use Rattle.words.specs.Word.{Width};
ghost use Rattle.tables.specs.Lines.{line_of, kind_in};
ghost use Rattle.tables.specs.Layout.{lines_of};
ghost use Rattle.tables.specs.Model.Notes.{given_in};
ghost use Rattle.circuits.specs.Cells.{part, put, mask_words};
ghost use Rattle.circuits.specs.Model.Work.{num_in, pos_in, wid_in};
ghost use Rattle.circuits.specs.Model.Passes.{Noted};
ghost use Rattle.circuits.specs.Model.Feeding.{free_line, free_lines, cells_in, fed_lines, entered_in, FitFed, AllFed};

use area::LAID;
use tables::Note;

// The line n, of the kind k, goes behind the m lines so far if it is a state that nobody drives. Answers how many there are now.
fn note_line(k: u64, notes: &[Note], n: usize, m: usize, lines: &mut [u32]) -> usize
    requires { (m < length lines.old) × (n < 4294967296) }
    ensures { ((rec : List ℕ) → k ≡ kind_in rec → take result lines.new ≡ take m lines.old ++ free_line (given_in notes.now false n) n (line_of rec))
        × (result ≤ m + 1) }
{
    if k != 5 || places::driven(notes, n) {
        return m;
    }
    lines[m] = n as u32;
    m + 1
}

// The lines of the states that nobody drives, in order. Answers how many there are.
pub fn find(program: bool, table: &[u64], count: usize, notes: &[Note], lines: &mut [u32]) -> usize
    requires { Noted program table.now count notes.now × (length lines.old ≡ 16385) }
    ensures { (take result lines.new ≡ free_lines program (lines_of program table.now count)) × (result ≤ 16384) }
{
    let mut m = 0;
    for i in 0..count {
        m = note_line(records::kind(program, table, i), notes, i + 1, m, lines);
    }
    m
}

// The words of from, each modulo 2^w, go to to.
fn load_masked(to: &mut [u64], from: &[u64], w: u64)
    requires { (length to.old ≡ length from.now) × Width w }
    ensures { to.new ≡ mask_words w from.now }
{
    // By an index: of a slice written through a zip of its elements a proof knows no element.
    for (i, v) in from.iter().enumerate() {
        to[i] = operators::low(w, *v);
    }
}

// The state on the line q takes the row's words from r on, each modulo 2^w.
fn feed_line(q: usize, laid: &[[u32; LAID]; 16385], row: &[u64], r: usize, words: &mut [u64])
    requires { FitFed laid.now (length words.old) q × (r + num_in laid.now q ≤ length row.now) }
    ensures { words.new ≡ put words.old (pos_in laid.now q)
        (mask_words (wid_in laid.now q) (part row.now r (num_in laid.now q))) }
{
    let m = area::cells(laid, q);
    let a = area::place(laid, q);
    load_masked(&mut words[a..a + m], &row[r..r + m], area::width(laid, q));
}

// The states on the given lines take the words of the row, one after the other.
pub fn feed(lines: &[u32], laid: &[[u32; LAID]; 16385], row: &[u64], words: &mut [u64])
    requires { AllFed laid.now (length words.old) lines.now × (cells_in laid.now lines.now ≤ length row.now) }
    ensures { words.new ≡ fed_lines laid.now lines.now words.old row.now }
{
    let mut r = 0;
    for line in lines {
        let q = *line as usize;
        feed_line(q, laid, row, r, words);
        r += area::cells(laid, q);
    }
}

// The step i begins: from step 1 on the states on the given lines take the words of the row. The state words are those of the work area from `all` on.
pub fn enter(
    i: usize,
    lines: &[u32],
    laid: &[[u32; LAID]; 16385],
    row: &[u64],
    all: usize,
    work: &mut [u64],
)
    requires { (all ≤ length work.old) × (AllFed laid.now (length (drop all work.old)) lines.now × (cells_in laid.now lines.now ≤ length row.now)) }
    ensures { drop all work.new ≡ entered_in laid.now lines.now i (drop all work.old) row.now }
{
    if i != 0 {
        feed(lines, laid, row, &mut work[all..]);
    }
}
