// What is kept of a line for later lines, and its instruction.
#![tactic(auto)]

ghost use Rattle.std.specs.Prelude.{◌≡◌, ◌&&◌, ◌<◌};
ghost use Rattle.programs.specs.Translation.{known_at, operand_width, operand_number, loose_of};
ghost use Rattle.programs.specs.Model.Records.{loose_in, instruction as instruction_of, width_in, number_in, emitted as emitted_of, Taken};
ghost use Rattle.tables.specs.Pick.{pick};

use programs::{Known, NONE_KNOWN};
use tables::WORDS;
use uses::entries;

// What is known of the line a.
pub fn of_line(known: &[Known], a: u64) -> Known
    ensures { result ≡ known_at known.now a }
{
    entries::at(known, a, NONE_KNOWN)
}

// An operand is a line, and a loose one.
fn loose_operand(line: bool, known: &[Known], a: u64) -> bool
    ensures { result ≡ (line && loose_of known.now a) }
{
    line && of_line(known, a).loose
}

// The record's line is loose.
fn loose(rec: [u64; WORDS], known: &[Known]) -> bool
    ensures { result ≡ loose_in (operand_width known.now) (loose_of known.now) rec }
{
    if of_line(known, rec[1]).width == 64 {
        return false;
    }
    let k = rec[0];
    let l1 = loose_operand(uses::first_line(k), known, rec[2]);
    let l2 = loose_operand(uses::second_line(k), known, rec[3]);
    let l3 = loose_operand(uses::third_line(k), known, rec[4]);
    uses::loose_kind(k, l1, l2, l3)
}

// An operand: a line's instruction number, or the number as it is written.
fn operand(line: bool, known: &[Known], a: u64) -> u64
    ensures { result ≡ pick line (operand_number known.now a) a }
{
    if line { of_line(known, a).number } else { a }
}

// The record's instruction.
pub fn instruction(rec: [u64; WORDS], known: &[Known]) -> [u64; WORDS]
    ensures { result ≡ instruction_of (operand_width known.now) (operand_number known.now) rec }
{
    let k = rec[0];
    let w = of_line(known, rec[1]).width;
    let a = operand(uses::first_line(k), known, rec[2]);
    let b = operand(uses::second_line(k), known, rec[3]);
    let c = operand(uses::third_line(k), known, rec[4]);
    records::of(k, w, a, b, c)
}

// The line's width.
fn width(rec: [u64; WORDS], known: &[Known]) -> u64
    ensures { result ≡ width_in (operand_width known.now) rec }
{
    match rec[0] {
        1 => rec[2],
        k if uses::has_value(k) => of_line(known, rec[1]).width,
        _ => 0,
    }
}

// The instruction that uses of the line take.
fn number(k: u64, b: u64, mask: bool) -> u64
    requires { b < 65536 }
    ensures { result ≡ number_in k b mask }
{
    if uses::has_value(k) {
        b + u64::from(mask)
    } else {
        0
    }
}

// How many instructions a line has.
pub fn emitted(k: u64, mask: bool) -> usize
    ensures { result ≡ emitted_of k mask }
{
    if k <= 2 { 0 } else { 1 + usize::from(mask) }
}

// What is known of the line n goes to the list; answers whether the line gets a mask.
pub fn take(rec: [u64; WORDS], n: u64, need: bool, b: u64, known: &mut [Known]) -> bool
    requires { b < 65536 }
    ensures { Taken rec n need b known.old known.new result }
{
    let l = loose(rec, known);
    let m = l && need;
    let line = Known {
        width: width(rec, known),
        number: number(rec[0], b, m),
        loose: l,
    };
    entries::put(known, n, line);
    m
}
