// Overflow detectors on words of 1 to 64 bits: whether the result of an operation, as a whole number, lies outside the operands' width. No sum, difference or product is
// worked out that could pass 64 bits. In each, x and y are words of the width w, m is the greatest word of it and h the greatest signed number; a word above h is negative,
// -1 - (m - x).
#![tactic(auto)]

ghost use Rattle.std.specs.Prelude.{◌≡◌, ◌≤◌, ◌*◌, ltb};
ghost use Rattle.words.specs.Word.{Width};
ghost use Rattle.words.specs.Op.{op_of, uaddo, saddo, usubo, ssubo, umulo, smulo, sdivo};
ghost use Rattle.words.specs.Overflow.{overflows};
ghost use Rattle.words.specs.Program.{prog};
ghost use Rattle.words.specs.Model.Widths.{Words};

// The product of p and q is above the limit. It may not fit a machine word: one division tells.
fn passes(limit: u64, p: u64, q: u64) -> bool
    ensures { result ≡ ltb limit (p * q) }
{
    p != 0 && limit / p < q
}

fn uaddo(w: u64, x: u64, y: u64) -> bool
    requires { Words w x y }
    ensures { result ≡ overflows uaddo w x y }
{
    operators::mask(w) - x < y
}

fn usubo(w: u64, x: u64, y: u64) -> bool
    requires { Words w x y }
    ensures { result ≡ overflows usubo w x y }
{
    x < y
}

fn umulo(w: u64, x: u64, y: u64) -> bool
    requires { Words w x y }
    ensures { result ≡ overflows umulo w x y }
{
    passes(operators::mask(w), x, y)
}

// Numbers of two signs have a sum between them.
fn saddo(w: u64, x: u64, y: u64) -> bool
    requires { Words w x y }
    ensures { result ≡ overflows saddo w x y }
{
    let m = operators::mask(w);
    let h = m >> 1;
    match (x <= h, y <= h) {
        (true, true) => h - x < y,
        (false, false) => h - (m - x) <= m - y,
        _ => false,
    }
}

// Numbers of one sign have a difference between the least and the greatest.
fn ssubo(w: u64, x: u64, y: u64) -> bool
    requires { Words w x y }
    ensures { result ≡ overflows ssubo w x y }
{
    let m = operators::mask(w);
    let h = m >> 1;
    match (x <= h, y <= h) {
        (true, false) => h - x <= m - y,
        (false, true) => h - (m - x) < y,
        _ => false,
    }
}

// The product of the sizes: up to h where the signs are the same, else up to h + 1.
fn smulo(w: u64, x: u64, y: u64) -> bool
    requires { Words w x y }
    ensures { result ≡ overflows smulo w x y }
{
    let m = operators::mask(w);
    let h = m >> 1;
    match (x <= h, y <= h) {
        (true, true) => passes(h, x, y),
        (true, false) => passes(h + 1, x, m - y + 1),
        (false, true) => passes(h + 1, m - x + 1, y),
        (false, false) => passes(h, m - x + 1, m - y + 1),
    }
}

// Of all quotients only that of the least value by -1 is no word; by 0 there is none.
fn sdivo(w: u64, x: u64, y: u64) -> bool
    requires { Words w x y }
    ensures { result ≡ overflows sdivo w x y }
{
    let m = operators::mask(w);
    x == (m >> 1) + 1 && y == m
}

// The word of the detector of a kind from 57 to 63 in a program, which reads the low w bits of each operand.
pub fn detect(kind: u64, w: u64, a: u64, b: u64) -> u64
    requires { (57 ≤ kind) × ((kind ≤ 63) × Width w) }
    ensures { result ≡ prog (op_of kind) w w a b 0 }
{
    let x = operators::low(w, a);
    let y = operators::low(w, b);
    // The kinds' numbers are those of records in include/gofeshan.h.
    let outside = match kind {
        57 => uaddo(w, x, y),
        58 => saddo(w, x, y),
        59 => usubo(w, x, y),
        60 => ssubo(w, x, y),
        61 => umulo(w, x, y),
        62 => smulo(w, x, y),
        _ => sdivo(w, x, y),
    };
    u64::from(outside)
}
