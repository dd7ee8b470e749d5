// The word operators by kind: `prog_word` computes an instruction of a program and `circ_word` a line of a circuit, whose word is the low bits of a program's.
#![tactic(auto)]

ghost use Rattle.std.specs.Prelude.{◌≡◌, ◌^◌, ◌<◌, ◌≤◌};
ghost use Rattle.words.specs.Word.{Width};
ghost use Rattle.words.specs.Op.{op_of};
ghost use Rattle.words.specs.Circuit.{circ};
ghost use Rattle.words.specs.Program.{prog};
ghost use Rattle.words.specs.Model.Classes.{class_of};
ghost use Rattle.words.specs.Model.Widths.{Widths, width_of};

// An instruction's word, for kinds 11 to 53 and 56 to 63. u and v are the widths of its first and second operands; operands that are numbers stand in b and c.
pub fn prog_word(kind: u64, u: u64, v: u64, a: u64, b: u64, c: u64) -> u64
    requires { (11 ≤ kind) × Width u × Widths (class_of (op_of kind)) u v b c }
    ensures { result ≡ prog (op_of kind) u v a b c }
{
    // The kinds' numbers are those of records in include/gofeshan.h.
    match kind {
        11 => !a,
        12 => a.wrapping_neg(),
        13 => a.wrapping_add(1),
        14 => a.wrapping_sub(1),
        15 => operators::eq(a, operators::mask(u)),
        16 => operators::neq(a, 0),
        17 => operators::redxor(a),
        18 => a >> c,
        19 => a,
        20 => operators::sext(u, a, b),
        21 => operators::eq(a, b),
        22 => operators::neq(a, b),
        23 => operators::ult(a, b),
        24 => operators::ulte(a, b),
        25 => operators::ult(b, a),
        26 => operators::ulte(b, a),
        27 => operators::slt(u, a, b),
        28 => operators::slte(u, a, b),
        29 => operators::slt(u, b, a),
        30 => operators::slte(u, b, a),
        31 => !(a ^ b),
        32 => !a | b,
        33 => a & b,
        34 => a | b,
        35 => a ^ b,
        36 => !(a & b),
        37 => !(a | b),
        38 => !(a ^ b),
        39 => a.wrapping_add(b),
        40 => a.wrapping_sub(b),
        41 => operators::wrapping_mul(a, b),
        42 => operators::udiv(u, a, b),
        43 => operators::urem(a, b),
        44 => operators::sdiv(u, a, b),
        45 => operators::srem(u, a, b),
        46 => operators::smod(u, a, b),
        47 => operators::sll(u, a, b),
        48 => operators::srl(u, a, b),
        49 => operators::sra(u, a, b),
        50 => operators::rol(u, a, b),
        51 => operators::ror(u, a, b),
        52 => (a << v) | b,
        53 => if a != 0 { b } else { c },
        57..=63 => detectors::detect(kind, u, a, b),
        _ => operators::low(u, a),
    }
}

// A line's word, for kinds 11 to 53 and 57 to 63. w is the line's width, and the operands are as in `prog_word`, each below 2 to its width.
pub fn circ_word(kind: u64, w: u64, u: u64, v: u64, a: u64, b: u64, c: u64) -> u64
    requires { (11 ≤ kind) × Width u × Widths (class_of (op_of kind)) u v b c × (a < 2 ^ u) × (b < 2 ^ v) × (c < 2 ^ v) × (w ≡ width_of (class_of (op_of kind)) u v b c) }
    ensures { result ≡ circ (op_of kind) u v a b c }
{
    operators::low(w, prog_word(kind, u, v, a, b, c))
}
