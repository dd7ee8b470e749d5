// Lines of a step that are one word, as the steps of a run compute them. Each function says whether it did: a line of more cells, or of another kind, is left as it stands.
#![tactic(auto)]

ghost use Rattle.std.specs.Prelude.{◌≡◌, true, false, not, ◌+◌, length, is_some};
ghost use Rattle.tables.specs.Pick.{pick};
ghost use Rattle.tables.specs.Lines.{Expr};
ghost use Rattle.circuits.specs.Cells.{put};
ghost use Rattle.circuits.specs.Meaning.{op_word};
ghost use Rattle.circuits.specs.Model.Work.{off_in, pos_in, wid_in, word_kept, expr_in, state_in, stored_in};
ghost use Rattle.circuits.specs.Model.Fits.{WordBelow, RunBelow, FitUnary, FitBinary, FitEquality, FitIte, FitState, FitNext};
ghost use Rattle.word_lines.specs.Model.Operators.{Asked, Given, Room, leaves};

use area::LAID;
use evaluation::{binary, unary};

// The word of a line whose kind, below 33, is a constant's or a word operator's; of another kind nothing is said. There is an arm for each kind,
// with the kind as a constant, so that the compiled code has one jump, and of each operator what it needs.
pub fn low_kinds(
    program: bool,
    k: u64,
    a: usize,
    b: usize,
    c: usize,
    n: usize,
    laid: &[[u32; LAID]; 16385],
    work: &[u64],
) -> Option<u64>
    requires { Asked program laid.now work.now n k a b c }
    ensures { Given program laid.now work.now k a b c result }
{
    match k {
        3 => Some(a as u64),
        11 => Some(unary(program, 11, a, b, c, n, laid, work)),
        12 => Some(unary(program, 12, a, b, c, n, laid, work)),
        13 => Some(unary(program, 13, a, b, c, n, laid, work)),
        14 => Some(unary(program, 14, a, b, c, n, laid, work)),
        15 => Some(unary(program, 15, a, b, c, n, laid, work)),
        16 => Some(unary(program, 16, a, b, c, n, laid, work)),
        17 => Some(unary(program, 17, a, b, c, n, laid, work)),
        18 => Some(unary(program, 18, a, b, c, n, laid, work)),
        19 => Some(unary(program, 19, a, b, c, n, laid, work)),
        20 => Some(unary(program, 20, a, b, c, n, laid, work)),
        23 => Some(binary(program, 23, a, b, n, laid, work)),
        24 => Some(binary(program, 24, a, b, n, laid, work)),
        25 => Some(binary(program, 25, a, b, n, laid, work)),
        26 => Some(binary(program, 26, a, b, n, laid, work)),
        27 => Some(binary(program, 27, a, b, n, laid, work)),
        28 => Some(binary(program, 28, a, b, n, laid, work)),
        29 => Some(binary(program, 29, a, b, n, laid, work)),
        30 => Some(binary(program, 30, a, b, n, laid, work)),
        31 => Some(binary(program, 31, a, b, n, laid, work)),
        32 => Some(binary(program, 32, a, b, n, laid, work)),
        _ => None,
    }
}

// The same of a kind from 33 on.
pub fn high_kinds(
    program: bool,
    k: u64,
    a: usize,
    b: usize,
    c: usize,
    n: usize,
    laid: &[[u32; LAID]; 16385],
    work: &[u64],
) -> Option<u64>
    requires { Asked program laid.now work.now n k a b c }
    ensures { Given program laid.now work.now k a b c result }
{
    match k {
        33 => Some(binary(program, 33, a, b, n, laid, work)),
        34 => Some(binary(program, 34, a, b, n, laid, work)),
        35 => Some(binary(program, 35, a, b, n, laid, work)),
        36 => Some(binary(program, 36, a, b, n, laid, work)),
        37 => Some(binary(program, 37, a, b, n, laid, work)),
        38 => Some(binary(program, 38, a, b, n, laid, work)),
        39 => Some(binary(program, 39, a, b, n, laid, work)),
        40 => Some(binary(program, 40, a, b, n, laid, work)),
        41 => Some(binary(program, 41, a, b, n, laid, work)),
        42 => Some(binary(program, 42, a, b, n, laid, work)),
        43 => Some(binary(program, 43, a, b, n, laid, work)),
        44 => Some(binary(program, 44, a, b, n, laid, work)),
        45 => Some(binary(program, 45, a, b, n, laid, work)),
        46 => Some(binary(program, 46, a, b, n, laid, work)),
        47 => Some(binary(program, 47, a, b, n, laid, work)),
        48 => Some(binary(program, 48, a, b, n, laid, work)),
        49 => Some(binary(program, 49, a, b, n, laid, work)),
        50 => Some(binary(program, 50, a, b, n, laid, work)),
        51 => Some(binary(program, 51, a, b, n, laid, work)),
        52 => Some(binary(program, 52, a, b, n, laid, work)),
        56 => Some(unary(program, 56, a, b, c, n, laid, work)),
        57 => Some(binary(program, 57, a, b, n, laid, work)),
        58 => Some(binary(program, 58, a, b, n, laid, work)),
        59 => Some(binary(program, 59, a, b, n, laid, work)),
        60 => Some(binary(program, 60, a, b, n, laid, work)),
        61 => Some(binary(program, 61, a, b, n, laid, work)),
        62 => Some(binary(program, 62, a, b, n, laid, work)),
        63 => Some(binary(program, 63, a, b, n, laid, work)),
        _ => None,
    }
}

// Stores the word, if there is one.
#[tactic(auto, using(circuits::proofs::Puts::stored))]
pub fn store(r: Option<u64>, n: usize, laid: &[[u32; LAID]; 16385], work: &mut [u64]) -> bool
    requires { Room laid.now work.old n r }
    ensures { (result ≡ is_some r) × (work.new ≡ leaves laid.now work.old n r) }
{
    match r {
        Some(v) => {
            let o = area::off(laid, n);
            work[o] = v;
            true
        }
        None => false,
    }
}

pub fn equality(
    e: bool,
    a: usize,
    b: usize,
    n: usize,
    laid: &[[u32; LAID]; 16385],
    work: &mut [u64],
) -> bool
    requires { WordBelow laid.now (length work.old) n × FitEquality laid.now n a b }
    ensures { work.new ≡ pick result (put work.old (off_in laid.now n) (expr_in false laid.now work.old (Expr.equality e a b)))
        work.old }
{
    if area::cells(laid, a) != 1 {
        return false;
    }
    evaluation::line_equality(e, a, b, n, laid, work);
    true
}

pub fn ite(
    c: usize,
    a: usize,
    b: usize,
    n: usize,
    laid: &[[u32; LAID]; 16385],
    work: &mut [u64],
) -> bool
    requires { RunBelow laid.now (length work.old) n × FitIte laid.now n c a b }
    ensures { work.new ≡ pick result (put work.old (off_in laid.now n) (expr_in false laid.now work.old (Expr.ite c a b)))
        work.old }
{
    if area::cells(laid, n) != 1 {
        return false;
    }
    evaluation::line_ite(c, a, b, n, laid, work);
    true
}

pub fn state(
    program: bool,
    first: bool,
    n: usize,
    laid: &[[u32; LAID]; 16385],
    all: usize,
    work: &mut [u64],
) -> bool
    requires { FitState laid.now all (length work.old) n }
    ensures { work.new ≡ pick result (put (put work.old (all + pos_in laid.now n) (state_in program first laid.now all work.old n))
        (off_in laid.now n) (state_in program first laid.now all work.old n)) work.old }
{
    if area::cells(laid, n) != 1 {
        return false;
    }
    state_lines::line_state(program, first, n, laid, all, work);
    true
}

pub fn next(
    first: bool,
    q: usize,
    v: usize,
    laid: &[[u32; LAID]; 16385],
    all: usize,
    work: &mut [u64],
) -> bool
    requires { FitNext laid.now all (length work.old) q v }
    ensures { work.new ≡ pick result (pick (not first) (put work.old (all + pos_in laid.now q) (stored_in laid.now work.old false q v))
        work.old) work.old }
{
    if area::cells(laid, v) != 1 {
        return false;
    }
    state_lines::line_next(first, q, v, laid, all, work);
    true
}
