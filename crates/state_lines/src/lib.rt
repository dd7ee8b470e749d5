// Lines of a step that begin, set or show: states, init and next lines, bad and constraint lines. `first` is true as the run starts, where init lines store and no line signals.
#![tactic(auto)]

ghost use Rattle.std.specs.Prelude.{◌≡◌, true, false, not, ◌||◌, ◌+◌, length, set};
ghost use Rattle.circuits.specs.Cells.{put, if_nonzero};
ghost use Rattle.circuits.specs.Model.Work.{state_in, stored_in, off_in, pos_in, word_kept};
ghost use Rattle.circuits.specs.Model.Fits.{FitState, FitInit, FitNext, FitSignal};
ghost use Rattle.tables.specs.Pick.{pick};

use area::LAID;

// State words are masked: start words, and a circuit's at every step.
fn masks(program: bool, first: bool) -> bool
    ensures { result ≡ (first || not program) }
{
    first || !program
}

pub fn line_state(
    program: bool,
    first: bool,
    n: usize,
    laid: &[[u32; LAID]; 16385],
    all: usize,
    work: &mut [u64],
)
    requires { FitState laid.now all (length work.old) n }
    ensures { work.new ≡ put (put work.old (all + pos_in laid.now n) (state_in program first laid.now all work.old n))
        (off_in laid.now n) (state_in program first laid.now all work.old n) }
{
    let o = area::off(laid, n);
    let m = area::cells(laid, n);
    let p = area::place(laid, n);
    let s = all + p;
    area::settle(masks(program, first), work, s, m, area::width(laid, n));
    area::copy(work, s, o, m);
}

pub fn line_init(
    first: bool,
    q: usize,
    v: usize,
    laid: &[[u32; LAID]; 16385],
    all: usize,
    work: &mut [u64],
)
    requires { FitInit laid.now all (length work.old) q v }
    ensures { work.new
        ≡ pick first (put work.old (all + pos_in laid.now q) (stored_in laid.now work.old true q v)) work.old }
{
    if !first {
        return;
    }
    let x = area::off(laid, v);
    let y = work[x];
    let p = area::place(laid, q);
    let s = all + p;
    area::fill_run(work, s, area::cells(laid, q), y);
}

pub fn line_next(
    first: bool,
    q: usize,
    v: usize,
    laid: &[[u32; LAID]; 16385],
    all: usize,
    work: &mut [u64],
)
    requires { FitNext laid.now all (length work.old) q v }
    ensures { work.new
        ≡ pick (not first) (put work.old (all + pos_in laid.now q) (stored_in laid.now work.old false q v)) work.old }
{
    if first {
        return;
    }
    let x = area::off(laid, v);
    let p = area::place(laid, q);
    let m = area::cells(laid, v);
    area::copy(work, x, all + p, m);
}

pub fn line_signal(
    first: bool,
    a: usize,
    n: usize,
    laid: &[[u32; LAID]; 16385],
    work: &[u64],
    sig: &mut [u8],
)
    requires { FitSignal laid.now (length work.now) (length sig.old) n a }
    ensures { sig.new
        ≡ pick first sig.old (set sig.old (pos_in laid.now n) (if_nonzero (word_kept laid.now work.now a) 1 0)) }
{
    if first {
        return;
    }
    let x = area::off(laid, a);
    let p = area::place(laid, n);
    sig[p] = u8::from(work[x] != 0);
}
