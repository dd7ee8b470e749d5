// Lines that leave one flat line, and array sorts: the flat lines go to the target, and what later lines need of the line is answered.
#![tactic(auto)]

ghost use Rattle.std.specs.Prelude.{◌≡◌, false, [], ◌∷◌, ◌+◌, ◌<◌, length, None};
ghost use Rattle.tables.specs.Lines.{Line, Expr};
ghost use Rattle.tables.specs.Layout.{held};
ghost use Rattle.flattening.specs.Placed.{put_flat};
ghost use Rattle.flattening.specs.Model.Lines.{made_as, small as small_of, notes};
ghost use Rattle.flattening.specs.Model.Fits.{Fit, MadeFlat};

use flat_cells::lines::Lines;
use flat_cells::{made, rows};
use flattening::Made;
use tables::WORDS;

// A line that leaves one flat line, with nothing that is kept yet.
fn copied(rec: [u64; WORDS], p: usize, target: &mut [u64]) -> Made
    requires { p < held false (length target.old) }
    ensures { (result ≡ made_as (p + 1) 0 0 None 0 None) × (target.new ≡ put_flat target.old p (rec ∷ [])) }
{
    rows::put(target, p, rec);
    made::nothing(p + 1)
}

// A word, which leaves one flat line: that line holds it.
fn word(rec: [u64; WORDS], p: usize, bit: u64, target: &mut [u64]) -> Made
    requires { p < held false (length target.old) }
    ensures { (result ≡ made_as (p + 1) (p + 1) bit None 1 None) × (target.new ≡ put_flat target.old p (rec ∷ [])) }
{
    rows::put(target, p, rec);
    made::value(p + 1, (p + 1) as u64, bit)
}

// A constant that is small.
fn small(v: u64) -> Option<u8>
    ensures { result ≡ small_of v }
{
    u8::try_from(v).ok()
}

// A word sort is copied.
pub fn line_bitvec(w: u64, lines: Lines, p: usize, target: &mut [u64]) -> Made
    requires { Fit (notes lines.kept.now lines.types.now) p (Line.bitvec w) (length target.old) }
    ensures { MadeFlat (notes lines.entry.kept.now lines.entry.types.now) p (Line.bitvec w) target.old target.new result }
{
    Made {
        at: (p + 1) as u64,
        ..copied(records::of(1, 0, w, 0, 0), p, target)
    }
}

// An array sort: a width-1 sort, then the index constants.
pub fn line_array(i: u64, e: u64, lines: Lines, p: usize, target: &mut [u64]) -> Made
    requires { Fit (notes lines.kept.now lines.types.now) p (Line.array i e) (length target.old) }
    ensures { MadeFlat (notes lines.entry.kept.now lines.entry.types.now) p (Line.array i e) target.old target.new result }
{
    let n = lines.index_size(i);
    flat_chains::array_lines(lines.kept, lines.sort_line(i), n, p, target);
    Made {
        at: lines.sort_line(e),
        bit: (p + 1) as u64,
        ..made::nothing(p + (1 + n))
    }
}

// An input is copied.
pub fn line_input(s: u64, lines: Lines, p: usize, target: &mut [u64]) -> Made
    requires { Fit (notes lines.kept.now lines.types.now) p (Line.input s) (length target.old) }
    ensures { MadeFlat (notes lines.entry.kept.now lines.entry.types.now) p (Line.input s) target.old target.new result }
{
    let rec = records::of(4, lines.sort_line(s), 0, 0, 0);
    word(rec, p, lines.bit_line(s), target)
}

// A constant is copied.
pub fn line_const(s: u64, v: u64, lines: Lines, p: usize, target: &mut [u64]) -> Made
    requires { Fit (notes lines.kept.now lines.types.now) p (Line.value s (Expr.const v)) (length target.old) }
    ensures { MadeFlat (notes lines.entry.kept.now lines.entry.types.now) p (Line.value s (Expr.const v)) target.old target.new result }
{
    let rec = records::of(3, lines.sort_line(s), v, 0, 0);
    Made {
        con: small(v),
        ..word(rec, p, lines.bit_line(s), target)
    }
}

// An operator of one word is copied.
pub fn line_unary(
    k: u64,
    s: u64,
    a: u64,
    x: u64,
    y: u64,
    lines: Lines,
    p: usize,
    target: &mut [u64],
) -> Made
    requires { Fit (notes lines.kept.now lines.types.now) p (Line.value s (Expr.unary k a x y)) (length target.old) }
    ensures { MadeFlat (notes lines.entry.kept.now lines.entry.types.now) p (Line.value s (Expr.unary k a x y)) target.old target.new result }
{
    let rec = records::of(k, lines.sort_line(s), lines.word_line(a), x, y);
    word(rec, p, lines.bit_line(s), target)
}

// An operator of two words is copied.
pub fn line_binary(
    k: u64,
    s: u64,
    a: u64,
    b: u64,
    lines: Lines,
    p: usize,
    target: &mut [u64],
) -> Made
    requires { Fit (notes lines.kept.now lines.types.now) p (Line.value s (Expr.binary k a b)) (length target.old) }
    ensures { MadeFlat (notes lines.entry.kept.now lines.entry.types.now) p (Line.value s (Expr.binary k a b)) target.old target.new result }
{
    let rec = records::of(
        k,
        lines.sort_line(s),
        lines.word_line(a),
        lines.word_line(b),
        0,
    );
    word(rec, p, lines.bit_line(s), target)
}

// bad and constraint are copied.
pub fn line_signal(m: bool, a: u64, lines: Lines, p: usize, target: &mut [u64]) -> Made
    requires { Fit (notes lines.kept.now lines.types.now) p (Line.signal m a) (length target.old) }
    ensures { MadeFlat (notes lines.entry.kept.now lines.entry.types.now) p (Line.signal m a) target.old target.new result }
{
    let kind = if m { 8 } else { 9 };
    copied(records::of(kind, 0, lines.word_line(a), 0, 0), p, target)
}

// An output is copied.
pub fn line_output(a: u64, lines: Lines, p: usize, target: &mut [u64]) -> Made
    requires { Fit (notes lines.kept.now lines.types.now) p (Line.output a) (length target.old) }
    ensures { MadeFlat (notes lines.entry.kept.now lines.entry.types.now) p (Line.output a) target.old target.new result }
{
    copied(records::of(10, 0, lines.word_line(a), 0, 0), p, target)
}
