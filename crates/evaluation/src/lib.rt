// Lines of a step that have a value and are no states: their cells go to their runs of the work area.
#![tactic(auto)]

ghost use Rattle.std.specs.Prelude.{◌≡◌, ◌≤◌, false, [], ◌∷◌, length, get_or};
ghost use Rattle.circuits.specs.Meaning.{op_word, input_word};
ghost use Rattle.tables.specs.Lines.{Expr};
ghost use Rattle.circuits.specs.Model.Work.{off_in, pos_in, wid_in, word_kept, expr_in};
ghost use Rattle.circuits.specs.Model.Fits.{FitWord, WordBelow, FitInput, FitUnary, FitBinary, FitEquality, FitRead, RunBelow, FitIte, FitWrite};
ghost use Rattle.words.specs.Word.{Width, bit};
ghost use Rattle.circuits.specs.Cells.{if_nonzero, eq_or_neq, put};

use area::LAID;

// A word operator, of a program or of a circuit.
pub fn word(program: bool, k: u64, w: u64, u: u64, v: u64, a: u64, b: u64, c: u64) -> u64
    requires { FitWord program k w u v a b c }
    ensures { result ≡ op_word program k u v a b c }
{
    if program {
        instructions::prog_word(k, u, v, a, b, c)
    } else {
        instructions::circ_word(k, w, u, v, a, b, c)
    }
}

// An operator of the kind k for the line n, on the word v of the line a and two numbers.
pub fn unary_word(
    program: bool,
    k: u64,
    a: usize,
    v: u64,
    x: u64,
    y: u64,
    n: usize,
    laid: &[[u32; LAID]; 16385],
) -> u64
    requires { (n ≤ 16384) × ((a ≤ 16384) × FitWord program k (wid_in laid.now n) (wid_in laid.now a) 64 v x y) }
    ensures { result ≡ op_word program k (wid_in laid.now a) 64 v x y }
{
    word(
        program,
        k,
        area::width(laid, n),
        area::width(laid, a),
        64,
        v,
        x,
        y,
    )
}

// An operator of the kind k for the line n, on the words v and y of the lines a and b.
pub fn binary_word(
    program: bool,
    k: u64,
    a: usize,
    b: usize,
    v: u64,
    y: u64,
    n: usize,
    laid: &[[u32; LAID]; 16385],
) -> u64
    requires { (n ≤ 16384) × ((a ≤ 16384) × ((b ≤ 16384) × FitWord program k (wid_in laid.now n) (wid_in laid.now a) (wid_in laid.now b) v y 0)) }
    ensures { result ≡ op_word program k (wid_in laid.now a) (wid_in laid.now b) v y 0 }
{
    word(
        program,
        k,
        area::width(laid, n),
        area::width(laid, a),
        area::width(laid, b),
        v,
        y,
        0,
    )
}

// The same of the word that the line a has in the work area.
pub fn unary(
    program: bool,
    k: u64,
    a: usize,
    x: usize,
    y: usize,
    n: usize,
    laid: &[[u32; LAID]; 16385],
    work: &[u64],
) -> u64
    requires { WordBelow laid.now (length work.now) n × FitUnary program laid.now work.now n k a x y }
    ensures { result ≡ op_word program k (wid_in laid.now a) 64 (word_kept laid.now work.now a) x y }
{
    let v = work[area::off(laid, a)];
    unary_word(program, k, a, v, x as u64, y as u64, n, laid)
}

// And of the words that the lines a and b have there.
pub fn binary(
    program: bool,
    k: u64,
    a: usize,
    b: usize,
    n: usize,
    laid: &[[u32; LAID]; 16385],
    work: &[u64],
) -> u64
    requires { WordBelow laid.now (length work.now) n × FitBinary program laid.now work.now n k a b }
    ensures { result ≡ op_word program k (wid_in laid.now a) (wid_in laid.now b) (word_kept laid.now work.now a)
        (word_kept laid.now work.now b) 0 }
{
    let v = work[area::off(laid, a)];
    let y = work[area::off(laid, b)];
    binary_word(program, k, a, b, v, y, n, laid)
}

// An input: modulo 2^w, in a program as it stands.
fn input_word(program: bool, w: u64, x: u64) -> u64
    requires { Width w }
    ensures { result ≡ input_word program w x }
{
    if program { x } else { operators::low(w, x) }
}

// What eq (true) and neq say of values that are the same, or not.
pub fn says(e: bool, r: bool) -> u64
    ensures { result ≡ bit (eq_or_neq e r) }
{
    u64::from(e == r)
}

#[tactic(auto, using(circuits::proofs::Puts::stored))]
pub fn line_const(a: u64, n: usize, laid: &[[u32; LAID]; 16385], work: &mut [u64])
    requires { WordBelow laid.now (length work.old) n }
    ensures { work.new ≡ put work.old (off_in laid.now n) (a ∷ []) }
{
    let o = area::off(laid, n);
    work[o] = a;
}

#[tactic(auto, using(circuits::proofs::Puts::stored))]
pub fn line_input(
    program: bool,
    n: usize,
    laid: &[[u32; LAID]; 16385],
    row: &[u64],
    work: &mut [u64],
)
    requires { FitInput laid.now (length work.old) (length row.now) n }
    ensures { work.new ≡ put work.old (off_in laid.now n)
        (input_word program (wid_in laid.now n) (get_or row.now (pos_in laid.now n) 0) ∷ []) }
{
    let o = area::off(laid, n);
    let p = area::place(laid, n);
    let v = row[p];
    work[o] = input_word(program, area::width(laid, n), v);
}

#[tactic(auto, using(circuits::proofs::Puts::stored))]
pub fn line_unary(
    program: bool,
    k: u64,
    a: usize,
    x: usize,
    y: usize,
    n: usize,
    laid: &[[u32; LAID]; 16385],
    work: &mut [u64],
)
    requires { WordBelow laid.now (length work.old) n × FitUnary program laid.now work.old n k a x y }
    ensures { work.new ≡ put work.old (off_in laid.now n) (expr_in program laid.now work.old (Expr.unary k a x y)) }
{
    let o = area::off(laid, n);
    work[o] = unary(program, k, a, x, y, n, laid, work);
}

#[tactic(auto, using(circuits::proofs::Puts::stored))]
pub fn line_binary(
    program: bool,
    k: u64,
    a: usize,
    b: usize,
    n: usize,
    laid: &[[u32; LAID]; 16385],
    work: &mut [u64],
)
    requires { WordBelow laid.now (length work.old) n × FitBinary program laid.now work.old n k a b }
    ensures { work.new ≡ put work.old (off_in laid.now n) (expr_in program laid.now work.old (Expr.binary k a b)) }
{
    let o = area::off(laid, n);
    work[o] = binary(program, k, a, b, n, laid, work);
}

pub fn line_equality(
    e: bool,
    a: usize,
    b: usize,
    n: usize,
    laid: &[[u32; LAID]; 16385],
    work: &mut [u64],
)
    requires { WordBelow laid.now (length work.old) n × FitEquality laid.now n a b }
    ensures { work.new ≡ put work.old (off_in laid.now n) (expr_in false laid.now work.old (Expr.equality e a b)) }
{
    let o = area::off(laid, n);
    let x = area::off(laid, a);
    let y = area::off(laid, b);
    let m = area::cells(laid, a);
    let r = area::alike(work, x, y, m);
    work[o] = says(e, r);
}

pub fn line_read(a: usize, i: usize, n: usize, laid: &[[u32; LAID]; 16385], work: &mut [u64])
    requires { WordBelow laid.now (length work.old) n × FitRead laid.now work.old n a i }
    ensures { work.new ≡ put work.old (off_in laid.now n) (expr_in false laid.now work.old (Expr.read a i)) }
{
    let o = area::off(laid, n);
    let p = area::off(laid, i);
    let v = work[p] as usize;
    let q = area::off(laid, a);
    let y = work[q + v];
    work[o] = y;
}

// The operand that an ite takes where its condition is c.
pub fn chosen(c: u64, a: usize, b: usize) -> usize
    ensures { result ≡ if_nonzero c a b }
{
    if c != 0 { a } else { b }
}

pub fn line_ite(
    c: usize,
    a: usize,
    b: usize,
    n: usize,
    laid: &[[u32; LAID]; 16385],
    work: &mut [u64],
)
    requires { RunBelow laid.now (length work.old) n × FitIte laid.now n c a b }
    ensures { work.new ≡ put work.old (off_in laid.now n) (expr_in false laid.now work.old (Expr.ite c a b)) }
{
    let o = area::off(laid, n);
    let m = area::cells(laid, n);
    let z = chosen(work[area::off(laid, c)], a, b);
    let x = area::off(laid, z);
    area::copy(work, x, o, m);
}

pub fn line_write(
    a: usize,
    i: usize,
    v: usize,
    n: usize,
    laid: &[[u32; LAID]; 16385],
    work: &mut [u64],
)
    requires { RunBelow laid.now (length work.old) n × FitWrite laid.now work.old n a i v }
    ensures { work.new ≡ put work.old (off_in laid.now n) (expr_in false laid.now work.old (Expr.write a i v)) }
{
    let o = area::off(laid, n);
    let m = area::cells(laid, n);
    let p = area::off(laid, i);
    let j = work[p] as usize;
    let q = area::off(laid, v);
    let x = work[q];
    area::copy(work, area::off(laid, a), o, m);
    area::store_run(work, o, m, j, x);
}
