// Lines that leave a flat line for each cell: states, init and next, and the operators that take arrays. The flat lines go to the target, and what later lines need of the line is answered.
#![tactic(auto)]

ghost use Rattle.std.specs.Prelude.{◌≡◌, length};
ghost use Rattle.flattening.specs.Model.Cells.{Sound};
ghost use Rattle.flattening.specs.Model.Rows.{Tame};
ghost use Rattle.flattening.specs.Model.Lines.{given_from, notes};
ghost use Rattle.flattening.specs.Model.Fits.{Fit, MadeFlat};
ghost use Rattle.tables.specs.Lines.{equality_kind, init_or_next_kind, Line, Expr};
ghost use Rattle.flattening.specs.Flat.{join_kind};

use flat_cells::lines::Lines;
use flat_cells::{cells, made, rows, sources};
use flattening::{Made, Source};

// The kinds of eq and neq, of and and or, and of init and next.
fn equality_kind(e: bool) -> u64
    ensures { result ≡ equality_kind e }
{
    if e { 21 } else { 22 }
}

fn join_kind(e: bool) -> u64
    ensures { result ≡ join_kind e }
{
    if e { 33 } else { 34 }
}

fn init_or_next_kind(m: bool) -> u64
    ensures { result ≡ init_or_next_kind m }
{
    if m { 6 } else { 7 }
}

// An init gives one word to all cells, a next its cells.
fn given_from(lines: Lines, m: bool, v: u64) -> Source
    requires { Sound lines.kept.now }
    ensures given { result ≡ given_from (notes lines.entry.kept.now lines.entry.types.now) m v }
    ensures tame { Tame result }
{
    if m {
        sources::run(lines.word_line(v), 0)
    } else {
        sources::of(v)
    }
}

// One state for each cell.
pub fn line_state(s: u64, lines: Lines, p: usize, target: &mut [u64]) -> Made
    requires { Fit (notes lines.kept.now lines.types.now) p (Line.state s) (length target.old) }
    ensures { MadeFlat (notes lines.entry.kept.now lines.entry.types.now) p (Line.state s) target.old target.new result }
{
    let n = lines.size(s);
    let z = sources::run(0, 0);
    rows::rows(lines.kept, target, p, n, 5, lines.sort_line(s), z, z, z);
    made::value(p + n, (p + 1) as u64, lines.bit_line(s))
}

// eq and neq: a test for each cell, then ands or ors.
pub fn line_equality(
    e: bool,
    s: u64,
    x: u64,
    y: u64,
    lines: Lines,
    p: usize,
    target: &mut [u64],
) -> Made
    requires { Fit (notes lines.kept.now lines.types.now) p (Line.value s (Expr.equality e x y)) (length target.old) }
    ensures { MadeFlat (notes lines.entry.kept.now lines.entry.types.now) p (Line.value s (Expr.equality e x y)) target.old target.new result }
{
    let n = lines.size(x);
    flat_chains::equality_lines(
        lines.kept,
        equality_kind(e),
        join_kind(e),
        lines.sort_line(s),
        x,
        y,
        n,
        p,
        target,
    );
    let q = p + (n + n.saturating_sub(1));
    made::value(q, q as u64, lines.bit_line(s))
}

// One ite for each cell.
pub fn line_ite(s: u64, c: u64, x: u64, y: u64, lines: Lines, p: usize, target: &mut [u64]) -> Made
    requires { Fit (notes lines.kept.now lines.types.now) p (Line.value s (Expr.ite c x y)) (length target.old) }
    ensures { MadeFlat (notes lines.entry.kept.now lines.entry.types.now) p (Line.value s (Expr.ite c x y)) target.old target.new result }
{
    let n = lines.size(x);
    rows::rows(
        lines.kept,
        target,
        p,
        n,
        53,
        lines.sort_line(s),
        sources::run(lines.word_line(c), 0),
        sources::of(x),
        sources::of(y),
    );
    made::value(p + n, (p + 1) as u64, lines.bit_line(s))
}

// A read: by a constant index it stands for the cell.
pub fn line_read(s: u64, a: u64, i: u64, lines: Lines, p: usize, target: &mut [u64]) -> Made
    requires { Fit (notes lines.kept.now lines.types.now) p (Line.value s (Expr.read a i)) (length target.old) }
    ensures { MadeFlat (notes lines.entry.kept.now lines.entry.types.now) p (Line.value s (Expr.read a i)) target.old target.new result }
{
    let b = lines.bit_line(s);
    if let Some(c) = lines.constant(i) {
        return made::value(p, cells::cell(lines.kept, a, c), b);
    }
    let n = lines.size(a);
    flat_chains::read_lines(
        lines.kept,
        lines.bit_line(a),
        lines.word_line(i),
        lines.sort_line(s),
        a,
        n,
        p,
        target,
    );
    let q = p + 2 * (n - 1);
    made::value(q, q as u64, b)
}

// A write: by a constant index it swaps one cell.
pub fn line_write(
    s: u64,
    a: u64,
    i: u64,
    v: u64,
    lines: Lines,
    p: usize,
    target: &mut [u64],
) -> Made
    requires { Fit (notes lines.kept.now lines.types.now) p (Line.value s (Expr.write a i v)) (length target.old) }
    ensures { MadeFlat (notes lines.entry.kept.now lines.entry.types.now) p (Line.value s (Expr.write a i v)) target.old target.new result }
{
    let o = lines.bit_line(s);
    let x = lines.word_line(v);
    if let Some(c) = lines.constant(i) {
        return Made {
            old: Some(a),
            key: c,
            ..made::value(p, x, o)
        };
    }
    let n = lines.size(s);
    rows::pairs(
        lines.kept,
        target,
        p,
        n,
        o,
        lines.word_line(i),
        lines.sort_line(s),
        sources::run(o + 1, 1),
        sources::run(x, 0),
        sources::of(a),
    );
    Made {
        key: 2,
        ..made::value(p + 2 * n, (p + 2) as u64, o)
    }
}

// init and next: one line for each cell.
pub fn line_init_or_next(
    m: bool,
    s: u64,
    q: u64,
    v: u64,
    lines: Lines,
    p: usize,
    target: &mut [u64],
) -> Made
    requires { Fit (notes lines.kept.now lines.types.now) p (Line.init_or_next m s q v) (length target.old) }
    ensures { MadeFlat (notes lines.entry.kept.now lines.entry.types.now) p (Line.init_or_next m s q v) target.old target.new result }
{
    let n = lines.size(q);
    let given = given_from(lines, m, v);
    rows::rows(
        lines.kept,
        target,
        p,
        n,
        init_or_next_kind(m),
        lines.sort_line(s),
        sources::of(q),
        given,
        sources::run(0, 0),
    );
    made::nothing(p + n)
}
