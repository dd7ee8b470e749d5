// One line of a step, by its kind.
#![tactic(auto)]

ghost use Rattle.std.specs.Prelude.{◌≡◌, length};
ghost use Rattle.tables.specs.Lines.{line_of};
ghost use Rattle.circuits.specs.Model.Work.{work_in, sigs_in};
ghost use Rattle.circuits.specs.Model.Fits.{FitL};

use area::LAID;
use tables::WORDS;

// The line n, whose record is rec.
pub fn line(
    program: bool,
    first: bool,
    rec: [u64; WORDS],
    n: usize,
    laid: &[[u32; LAID]; 16385],
    all: usize,
    row: &[u64],
    sig: &mut [u8],
    work: &mut [u64],
)
    requires { FitL program laid.now all (length row.now) (length sig.old) work.old n (line_of rec) }
    ensures { (work.new ≡ work_in program first laid.now all row.now work.old n (line_of rec))
        × (sig.new ≡ sigs_in first laid.now sig.old work.old n (line_of rec)) }
{
    let k = rec[0];
    let a = rec[2] as usize;
    let b = rec[3] as usize;
    let c = rec[4] as usize;
    match k {
        3 => evaluation::line_const(rec[2], n, laid, work),
        4 => evaluation::line_input(program, n, laid, row, work),
        5 => state_lines::line_state(program, first, n, laid, all, work),
        6 => state_lines::line_init(first, a, b, laid, all, work),
        7 => state_lines::line_next(first, a, b, laid, all, work),
        8 | 9 => state_lines::line_signal(first, a, n, laid, work, sig),
        11..=20 | 56 => evaluation::line_unary(program, k, a, b, c, n, laid, work),
        21 => evaluation::line_equality(true, a, b, n, laid, work),
        22 => evaluation::line_equality(false, a, b, n, laid, work),
        23..=52 | 57..=63 => evaluation::line_binary(program, k, a, b, n, laid, work),
        53 => evaluation::line_ite(a, b, c, n, laid, work),
        54 => evaluation::line_read(a, b, n, laid, work),
        55 => evaluation::line_write(a, b, c, n, laid, work),
        _ => {}
    }
}
