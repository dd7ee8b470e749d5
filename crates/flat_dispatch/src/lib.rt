// The flat lines of a line, by its kind.
#![tactic(auto)]

ghost use Rattle.std.specs.Prelude.{◌≡◌, true, false, ◌<◌, length};
ghost use Rattle.tables.specs.Lines.{line_of, kind_in};
ghost use Rattle.tables.specs.Tables.{known as known_of};
ghost use Rattle.flattening.specs.Model.Lines.{notes};
ghost use Rattle.flattening.specs.Model.Fits.{Fit, MadeFlat};

use flat_cells::lines::Lines;
use flattening::Made;
use tables::WORDS;

// The line of a record of an operator.
fn operator(rec: [u64; WORDS], lines: Lines, p: usize, target: &mut [u64]) -> Made
    requires { (known_of false (kind_in rec) ≡ true) × ((10 < kind_in rec) × Fit (notes lines.kept.now lines.types.now) p (line_of rec) (length target.old)) }
    ensures { MadeFlat (notes lines.entry.kept.now lines.entry.types.now) p (line_of rec) target.old target.new result }
{
    let [k, s, a, b, c] = rec;
    match k {
        ..=20 => flat_lines::line_unary(k, s, a, b, c, lines, p, target),
        21 | 22 => flat_arrays::line_equality(k == 21, s, a, b, lines, p, target),
        53 => flat_arrays::line_ite(s, a, b, c, lines, p, target),
        54 => flat_arrays::line_read(s, a, b, lines, p, target),
        55 => flat_arrays::line_write(s, a, b, c, lines, p, target),
        _ => flat_lines::line_binary(k, s, a, b, lines, p, target),
    }
}

// The line of a record of a circuit.
pub fn line(rec: [u64; WORDS], lines: Lines, p: usize, target: &mut [u64]) -> Made
    requires { (known_of false (kind_in rec) ≡ true) × Fit (notes lines.kept.now lines.types.now) p (line_of rec) (length target.old) }
    ensures { MadeFlat (notes lines.entry.kept.now lines.entry.types.now) p (line_of rec) target.old target.new result }
{
    let [k, s, a, b, _] = rec;
    match k {
        1 => flat_lines::line_bitvec(a, lines, p, target),
        2 => flat_lines::line_array(a, b, lines, p, target),
        3 => flat_lines::line_const(s, a, lines, p, target),
        4 => flat_lines::line_input(s, lines, p, target),
        5 => flat_arrays::line_state(s, lines, p, target),
        6 | 7 => flat_arrays::line_init_or_next(k == 6, s, a, b, lines, p, target),
        8 | 9 => flat_lines::line_signal(k == 8, a, lines, p, target),
        10 => flat_lines::line_output(a, lines, p, target),
        _ => operator(rec, lines, p, target),
    }
}
