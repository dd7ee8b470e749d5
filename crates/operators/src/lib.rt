// Operators on words of 1 to 64 bits. All of them work on whole 64-bit words, as programs do.
#![tactic(auto)]

ghost use Rattle.std.specs.Prelude.{◌≡◌, ◌+◌, ◌-◌, ◌*◌, ◌%◌, ◌^◌, ◌<◌, ◌≤◌};
ghost use Rattle.words.specs.Word.{Width, signed_value, twos_complement, toward_divisor};
ghost use Rattle.words.specs.Op.{udiv, urem, redxor, eq, neq, ult, ulte, sext, slt, slte, sdiv, srem, smod, sll, srl, sra, rol, ror};
ghost use Rattle.words.specs.Program.{prog};

// The greatest word of width w: all its bits are set.
pub fn mask(w: u64) -> u64
    requires { Width w }
    ensures { result ≡ 2 ^ w - 1 }
{
    u64::MAX >> (64 - w)
}

// The low w bits of x.
pub fn low(w: u64, x: u64) -> u64
    requires { Width w }
    ensures { (result ≡ x % 2 ^ w) × (result < 2 ^ w) }
{
    x & mask(w)
}

// ---- arithmetic and tests on whole words

// The product modulo 2^64.
pub fn wrapping_mul(a: u64, b: u64) -> u64
    ensures { result ≡ a * b % 2 ^ 64 }
{
    a.wrapping_mul(b)
}

pub fn udiv(w: u64, a: u64, b: u64) -> u64
    requires { Width w }
    ensures { result ≡ prog udiv w w a b 0 }
{
    if b == 0 { mask(w) } else { a / b }
}

pub fn urem(a: u64, b: u64) -> u64
    ensures { result ≡ prog urem 64 64 a b 0 }
{
    if b == 0 { a } else { a % b }
}

pub fn redxor(a: u64) -> u64
    ensures { result ≡ prog redxor 64 64 a 0 0 }
{
    u64::from(a.count_ones() & 1)
}

pub fn eq(a: u64, b: u64) -> u64
    ensures { result ≡ prog eq 64 64 a b 0 }
{
    u64::from(a == b)
}

pub fn neq(a: u64, b: u64) -> u64
    ensures { result ≡ prog neq 64 64 a b 0 }
{
    u64::from(a != b)
}

pub fn ult(a: u64, b: u64) -> u64
    ensures { result ≡ prog ult 64 64 a b 0 }
{
    u64::from(a < b)
}

pub fn ulte(a: u64, b: u64) -> u64
    ensures { result ≡ prog ulte 64 64 a b 0 }
{
    u64::from(a <= b)
}

// ---- signed operators, on the low w bits of their operands

// The low w bits of a word as a signed number, by their sign bit, bit w - 1: they are moved to the top of the word and back, and copies of the sign bit come in.
fn to_signed(w: u64, a: u64) -> i64
    requires { Width w }
    ensures { result ≡ signed_value w (a % 2 ^ w) }
{
    let spare = 64 - w;
    (a << spare).cast_signed() >> spare
}

// The word of width w of a signed number.
fn from_signed(w: u64, z: i64) -> u64
    requires { Width w }
    ensures { result ≡ twos_complement w z }
{
    low(w, z.cast_unsigned())
}

pub fn sext(w: u64, a: u64, extra: u64) -> u64
    requires { Width w × (w + extra ≤ 64) }
    ensures { result ≡ prog sext w w a extra 0 }
{
    from_signed(w + extra, to_signed(w, a))
}

pub fn slt(w: u64, a: u64, b: u64) -> u64
    requires { Width w }
    ensures { result ≡ prog slt w w a b 0 }
{
    u64::from(to_signed(w, a) < to_signed(w, b))
}

pub fn slte(w: u64, a: u64, b: u64) -> u64
    requires { Width w }
    ensures { result ≡ prog slte w w a b 0 }
{
    u64::from(to_signed(w, a) <= to_signed(w, b))
}

// By -1 the least value, which has no opposite of its width, stays as it is: `/` has no answer there.
pub fn sdiv(w: u64, a: u64, b: u64) -> u64
    requires { Width w }
    ensures { result ≡ prog sdiv w w a b 0 }
{
    let n = to_signed(w, a);
    let d = to_signed(w, b);
    if d == 0 {
        if n >= 0 { mask(w) } else { 1 }
    } else {
        from_signed(w, n.wrapping_div(d))
    }
}

// By -1 nothing is left over, of the least value too, where `%` has no answer.
pub fn srem(w: u64, a: u64, b: u64) -> u64
    requires { Width w }
    ensures { result ≡ prog srem w w a b 0 }
{
    let n = to_signed(w, a);
    let d = to_signed(w, b);
    if d == 0 {
        low(w, a)
    } else {
        from_signed(w, n.wrapping_rem(d))
    }
}

// A remainder moved to the divisor's sign.
fn toward_divisor(r: i64, d: i64) -> i64
    ensures { result ≡ toward_divisor r d }
{
    if r == 0 || (r >= 0) == (d >= 0) {
        r
    } else {
        r + d
    }
}

pub fn smod(w: u64, a: u64, b: u64) -> u64
    requires { Width w }
    ensures { result ≡ prog smod w w a b 0 }
{
    let n = to_signed(w, a);
    let d = to_signed(w, b);
    if d == 0 {
        low(w, a)
    } else {
        from_signed(w, toward_divisor(n.wrapping_rem(d), d))
    }
}

// ---- shifts, whose limit is w, and rotations of w bits; those of the library turn all 64

pub fn sll(w: u64, a: u64, b: u64) -> u64
    requires { Width w }
    ensures { result ≡ prog sll w w a b 0 }
{
    if b < w { a << b } else { 0 }
}

pub fn srl(w: u64, a: u64, b: u64) -> u64
    requires { Width w }
    ensures { result ≡ prog srl w w a b 0 }
{
    if b < w { a >> b } else { 0 }
}

pub fn sra(w: u64, a: u64, b: u64) -> u64
    requires { Width w }
    ensures { result ≡ prog sra w w a b 0 }
{
    // from 63 on, copies of the sign alone are left
    let amount = low(w, b);
    from_signed(w, to_signed(w, a) >> amount.min(63))
}

pub fn rol(w: u64, a: u64, b: u64) -> u64
    requires { Width w }
    ensures { result ≡ prog rol w w a b 0 }
{
    let x = low(w, a);
    let r = low(w, b) % w;
    if r == 0 {
        x
    } else {
        low(w, x << r) | (x >> (w - r))
    }
}

pub fn ror(w: u64, a: u64, b: u64) -> u64
    requires { Width w }
    ensures { result ≡ prog ror w w a b 0 }
{
    let x = low(w, a);
    let r = low(w, b) % w;
    if r == 0 {
        x
    } else {
        (x >> r) | low(w, x << (w - r))
    }
}
