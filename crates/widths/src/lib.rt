// Rule 9: sorts, widths, bounds and constants fit. t is the type of the line's sort, a, b and c are those of its operands.
#![tactic(auto)]

ghost use Rattle.std.specs.Prelude.{◌≡◌, ◌^◌, ltb};
ghost use Rattle.tables.specs.Rules.{fits_unary, fits_binary, same_sort as same_of, fits_equality, fits_ite, fits_read, fits_write, fits_init_or_next, fits as fits_of};
ghost use Rattle.tables.specs.Pick.{all, inside};
ghost use Rattle.tables.specs.Lines.{line_of};

use tables::{Ty, WORDS};

// The line's width w, the operand's u and the numbers of an operator of one word fit.
fn fits_unary(k: u64, w: u8, u: u8, x: u64, y: u64) -> bool
    ensures { result ≡ fits_unary k w u x y }
{
    match k {
        ..=14 | 56 => w == u,
        15..=17 => w == 1,
        18 => y <= x && x < u64::from(u) && u64::from(w) + y == x + 1,
        _ => x <= 255 && u64::from(w) == u64::from(u) + x,
    }
}

// The widths of an operator of two words fit: where the result is one bit and the operands have any width, in iff and implies, where all have one width, in concat.
fn fits_binary(k: u64, w: u8, u: u8, v: u8) -> bool
    ensures { result ≡ fits_binary k w u v }
{
    match k {
        ..=30 | 57.. => w == 1 && v == u,
        31 | 32 => w == 1 && u == 1 && v == 1,
        33..=51 => u == w && v == w,
        _ => u64::from(w) == u64::from(u) + u64::from(v),
    }
}

// The same widths.
fn same(a: Ty, t: Ty) -> bool
    ensures { result ≡ same_of a t }
{
    a.iw == t.iw && a.w == t.w
}

// A constant is below 2^w.
fn fits_const(v: u64, w: u8) -> bool
    ensures { result ≡ ltb v (2 ^ w) }
{
    64 <= w || v >> w == 0
}

fn fits_equality(t: Ty, a: Ty, b: Ty) -> bool
    ensures { result ≡ all (fits_equality t a b) }
{
    t.w == 1 && same(b, a)
}

fn fits_ite(t: Ty, a: Ty, b: Ty, c: Ty) -> bool
    ensures { result ≡ all (fits_ite t a b c) }
{
    a.w == 1 && same(b, t) && same(c, t)
}

fn fits_read(t: Ty, a: Ty, b: Ty) -> bool
    ensures { result ≡ all (fits_read t a b) }
{
    a.w == t.w && b.w == a.iw
}

fn fits_write(t: Ty, a: Ty, b: Ty, c: Ty) -> bool
    ensures { result ≡ all (fits_write t a b c) }
{
    same(a, t) && b.w == t.iw && c.w == t.w
}

// The value's type b fits the state's, a, which is the sort t; an init's value is one word.
fn fits_init_or_next(init: bool, t: Ty, a: Ty, b: Ty) -> bool
    ensures { result ≡ all (fits_init_or_next init t a b) }
{
    let index = if init { 0 } else { t.iw };
    same(a, t) && b.w == t.w && b.iw == index
}

// Rule 9, by the kinds' numbers, which the C interface fixes.
pub fn fits(rec: [u64; WORDS], t: Ty, a: Ty, b: Ty, c: Ty) -> bool
    ensures { result ≡ all (fits_of (line_of rec) t a b c) }
{
    let k = rec[0];
    let x = rec[2];
    match k {
        1 => is_width(x),
        2 => a.w <= 8,
        3 => fits_const(x, t.w),
        4 | 5 | 10 => true,
        6 | 7 => fits_init_or_next(k == 6, t, a, b),
        8 | 9 => a.w == 1,
        11..=20 | 56 => fits_unary(k, t.w, a.w, rec[3], rec[4]),
        21 | 22 => fits_equality(t, a, b),
        23..=52 | 57..=63 => fits_binary(k, t.w, a.w, b.w),
        53 => fits_ite(t, a, b, c),
        54 => fits_read(t, a, b),
        55 => fits_write(t, a, b, c),
        _ => false,
    }
}

// A width of 1 to 64.
pub fn is_width(w: u64) -> bool
    ensures { result ≡ inside 1 64 w }
{
    (1..=64).contains(&w)
}
