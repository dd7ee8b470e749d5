// One line of a step that is one word, or does nothing, by its kind. The walk of a step tries this first: no line of words is a call there.
#![tactic(auto)]

ghost use Rattle.std.specs.Prelude.{◌≡◌, length};
ghost use Rattle.tables.specs.Pick.{pick};
ghost use Rattle.tables.specs.Lines.{line_of};
ghost use Rattle.circuits.specs.Model.Work.{work_in, sigs_in};
ghost use Rattle.circuits.specs.Model.Fits.{FitL};

use area::LAID;
use tables::WORDS;

// The line n, whose record is rec. It says whether it was done; if not, all is as it was. The kinds are parted in two so that the processor, which foresees a jump by the branches before
// it, has one branch more to go by; kind 0 has an arm so that of the first part only the end is tested.
pub fn line(
    program: bool,
    first: bool,
    rec: [u64; WORDS],
    n: usize,
    laid: &[[u32; LAID]; 16385],
    all: usize,
    row: &[u64],
    sig: &mut [u8],
    work: &mut [u64],
) -> bool
    requires { FitL program laid.now all (length row.now) (length sig.old) work.old n (line_of rec) }
    ensures { (work.new ≡ pick result (work_in program first laid.now all row.now work.old n (line_of rec)) work.old)
        × (sig.new ≡ pick result (sigs_in first laid.now sig.old work.old n (line_of rec)) sig.old) }
{
    let k = rec[0];
    let a = rec[2] as usize;
    let b = rec[3] as usize;
    let c = rec[4] as usize;
    if k < 33 {
        match k {
            // An arm for each kind, alike or not: with arms joined this match and that of `low_kinds` are compiled as two jumps, and not as one.
            0 => true,
            1 => true,
            2 => true,
            4 => {
                evaluation::line_input(program, n, laid, row, work);
                true
            }
            5 => word_lines::state(program, first, n, laid, all, work),
            6 => !first,
            7 => word_lines::next(first, a, b, laid, all, work),
            8 => {
                state_lines::line_signal(first, a, n, laid, work, sig);
                true
            }
            9 => {
                state_lines::line_signal(first, a, n, laid, work, sig);
                true
            }
            10 => true,
            21 => word_lines::equality(true, a, b, n, laid, work),
            22 => word_lines::equality(false, a, b, n, laid, work),
            _ => {
                let r = word_lines::low_kinds(program, k, a, b, c, n, laid, work);
                word_lines::store(r, n, laid, work)
            }
        }
    } else {
        match k {
            53 => word_lines::ite(a, b, c, n, laid, work),
            54 => {
                evaluation::line_read(a, b, n, laid, work);
                true
            }
            55 => false,
            _ => {
                let r = word_lines::high_kinds(program, k, a, b, c, n, laid, work);
                word_lines::store(r, n, laid, work)
            }
        }
    }
}
