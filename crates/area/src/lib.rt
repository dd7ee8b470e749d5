// Runs of neighbouring words: the work area holds the cells of a line as one run, and `laid` says of each line where.
#![tactic(auto)]

ghost use Rattle.std.specs.Prelude.{◌≡◌, ◌≤◌, ◌+◌, ◌-◌, ◌<◌, length, replicate, set, drop};
ghost use Rattle.circuits.specs.Model.Work.{off_in, num_in, pos_in, wid_in, Apart};
ghost use Rattle.circuits.specs.Cells.{part, put, mask_words, same_cells};
ghost use Rattle.words.specs.Word.{Width};
ghost use Rattle.tables.specs.Pick.{pick};

// The numbers laid out for a line: its first word in the work area, its cells, its place (of a state's first word, an input or a signal) and its width.
pub const LAID: usize = 4;

// The first word of the line i.
pub fn off(laid: &[[u32; LAID]; 16385], i: usize) -> usize
    requires { i ≤ 16384 }
    ensures { result ≡ off_in laid.now i }
{
    laid[i][0] as usize
}

// The cells of the line i.
pub fn cells(laid: &[[u32; LAID]; 16385], i: usize) -> usize
    requires { i ≤ 16384 }
    ensures { result ≡ num_in laid.now i }
{
    laid[i][1] as usize
}

// The place of the line i.
pub fn place(laid: &[[u32; LAID]; 16385], i: usize) -> usize
    requires { i ≤ 16384 }
    ensures { result ≡ pos_in laid.now i }
{
    laid[i][2] as usize
}

// The width of the line i.
pub fn width(laid: &[[u32; LAID]; 16385], i: usize) -> u64
    requires { i ≤ 16384 }
    ensures { result ≡ wid_in laid.now i }
{
    u64::from(laid[i][3])
}

// Takes each word modulo 2^w.
fn mask_all(cells: &mut [u64], w: u64)
    requires { Width w }
    ensures { cells.new ≡ mask_words w cells.old }
{
    for c in cells.iter_mut() {
        *c = operators::low(w, *c);
    }
}

// Every cell is v.
pub fn fill(cells: &mut [u64], v: u64)
    ensures { cells.new ≡ replicate (length cells.old) v }
{
    cells.fill(v);
}

// Two runs hold the same words.
pub fn alike(words: &[u64], x: usize, y: usize, n: usize) -> bool
    requires { (x + n ≤ length words.now) × (y + n ≤ length words.now) }
    ensures { result ≡ same_cells (part words.now x n) (part words.now y n) }
{
    words[x..x + n] == words[y..y + n]
}

// The write evaluator for the cell that is written: the cells hold the array written to.
fn store(cells: &mut [u64], i: usize, v: u64)
    requires { i < length cells.old }
    ensures { cells.new ≡ set cells.old i v }
{
    cells[i] = v;
}

// Four neighbouring words, by value.
fn four(words: &[u64], x: usize) -> [u64; 4]
    requires { x + 4 ≤ length words.now }
    ensures { result ≡ part words.now x 4 }
{
    [words[x], words[x + 1], words[x + 2], words[x + 3]]
}

// The ite evaluator, and the write evaluator for what it keeps: four cells from i on are those of the operand.
fn take_four(cells: &mut [u64], i: usize, v: [u64; 4])
    requires { i + 4 ≤ length cells.old }
    ensures { cells.new ≡ put cells.old i v }
{
    cells[i] = v[0];
    cells[i + 1] = v[1];
    cells[i + 2] = v[2];
    cells[i + 3] = v[3];
}

// The words of from go to to.
fn load(to: &mut [u64], from: &[u64])
    requires { length to.old ≡ length from.now }
    ensures { to.new ≡ from.now }
{
    // `copy_from_slice` would be a call of memmove, which the archive then needs from outside.
    for (i, v) in from.iter().enumerate() {
        to[i] = *v;
    }
}

// ---- a run of the work area, lent

fn mask_run(work: &mut [u64], a: usize, m: usize, w: u64)
    requires { (a + m ≤ length work.old) × Width w }
    ensures { work.new ≡ put work.old a (mask_words w (part work.old a m)) }
{
    mask_all(&mut work[a..a + m], w);
}

// The words from a on are taken modulo 2^w, or stay.
pub fn settle(mask: bool, work: &mut [u64], a: usize, m: usize, w: u64)
    requires { (a + m ≤ length work.old) × Width w }
    ensures { work.new ≡ put work.old a (pick mask (mask_words w (part work.old a m)) (part work.old a m)) }
{
    if mask {
        mask_run(work, a, m, w);
    }
}

pub fn fill_run(work: &mut [u64], a: usize, m: usize, v: u64)
    requires { a + m ≤ length work.old }
    ensures { work.new ≡ put work.old a (replicate m v) }
{
    fill(&mut work[a..a + m], v);
}

pub fn store_run(work: &mut [u64], a: usize, m: usize, i: usize, v: u64)
    requires { (a + m ≤ length work.old) × (i < m) }
    ensures { work.new ≡ put work.old a (set (part work.old a m) i v) }
{
    store(&mut work[a..a + m], i, v);
}

fn take_run(work: &mut [u64], a: usize, m: usize, i: usize, v: [u64; 4])
    requires { (a + m ≤ length work.old) × (i + 4 ≤ m) }
    ensures { work.new ≡ put work.old (a + i) v }
{
    take_four(&mut work[a..a + m], i, v);
}

// The cells from the given one on, one by one.
fn copy_rest(work: &mut [u64], x: usize, o: usize, m: usize, from: usize)
    requires { Apart x o m × ((x + m ≤ length work.old) × ((o + m ≤ length work.old) × (from ≤ m))) }
    ensures { work.new ≡ put work.old (o + from) (part work.old (x + from) (m - from)) }
{
    for i in from..m {
        let v = work[x + i];
        store_run(work, o, m, i, v);
    }
}

// The cells of an array, four by four: `copy_within`, a word at a time, takes 34 instructions for 4 cells, 45 for 16 and 470 for 256, this 11, 30 and 405.
fn copy_cells(work: &mut [u64], x: usize, o: usize, m: usize)
    requires { Apart x o m × ((x + m ≤ length work.old) × (o + m ≤ length work.old)) }
    ensures { work.new ≡ put work.old o (part work.old x m) }
{
    for q in 0..m / 4 {
        let v = four(work, x + 4 * q);
        take_run(work, o, m, 4 * q, v);
    }
    copy_rest(work, x, o, m, m / 4 * 4);
}

// The m words from x on go to work[o..o + m]. A word, which has one cell, is one load and one store.
pub fn copy(work: &mut [u64], x: usize, o: usize, m: usize)
    requires { Apart x o m × ((x + m ≤ length work.old) × (o + m ≤ length work.old)) }
    ensures { work.new ≡ put work.old o (part work.old x m) }
{
    if m == 1 {
        let v = work[x];
        work[o] = v;
    } else {
        copy_cells(work, x, o, m);
    }
}

// The words of from go to work[a..].
pub fn load_at(work: &mut [u64], a: usize, from: &[u64])
    requires { length work.old ≡ a + length from.now }
    ensures { drop a work.new ≡ from.now }
{
    load(&mut work[a..], from);
}
