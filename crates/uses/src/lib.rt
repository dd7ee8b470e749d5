// Loose lines and needing uses, by kind; and the marks of lines that have a needing use.
#![tactic(auto)]

pub mod entries; // lists with an entry for each line number

ghost use Rattle.std.specs.Prelude.{◌≡◌, ◌&&◌};
ghost use Rattle.words.specs.Kinds.{loose_kind, need_kind₁, need_kind₂};
ghost use Rattle.programs.specs.Model.Kinds.{first_line, second_line, third_line, has_value, mark_if, uses_marked};

use tables::WORDS;

// The first operand has to be clean.
fn needs_first(k: u64) -> bool
    ensures { result ≡ need_kind₁ k }
{
    matches!(k, 6..=10 | 15..=17 | 19..=30 | 42..=46 | 48..=51 | 53 | 57..=63)
}

// The second operand is a line that has to be clean.
fn needs_second(k: u64) -> bool
    ensures { result ≡ (need_kind₂ k && second_line k) }
{
    matches!(k, 6..=7 | 21..=30 | 42..=52 | 57..=63)
}

// A line of the kind, of a width other than 64, is loose, by which of its operands are.
pub fn loose_kind(k: u64, l1: bool, l2: bool, l3: bool) -> bool
    ensures { result ≡ loose_kind k l1 l2 l3 }
{
    match k {
        4 | 11..=14 | 18 | 31..=32 | 36..=41 | 47 => true,
        33 => l1 && l2,
        34..=35 => l1 || l2,
        52 => l1,
        53 => l2 || l3,
        _ => false,
    }
}

// The first operand is a line.
pub fn first_line(k: u64) -> bool
    ensures { result ≡ first_line k }
{
    k >= 6
}

// The second operand is a line.
pub fn second_line(k: u64) -> bool
    ensures { result ≡ second_line k }
{
    matches!(k, 6..=7 | 21..)
}

// The third operand is a line.
pub fn third_line(k: u64) -> bool
    ensures { result ≡ third_line k }
{
    matches!(k, 53 | 55)
}

// The line has a value.
pub fn has_value(k: u64) -> bool
    ensures { result ≡ has_value k }
{
    matches!(k, 3..=5 | 11..)
}

// A mark at the line a, if there is to be one.
fn mark_if(wanted: bool, a: u64, marks: &mut [bool])
    ensures { marks.new ≡ mark_if wanted a marks.old }
{
    if wanted {
        entries::put(marks, a, true);
    }
}

// A mark at each line that the record needs clean.
pub fn mark(rec: [u64; WORDS], marks: &mut [bool])
    ensures { marks.new ≡ uses_marked rec marks.old }
{
    mark_if(needs_first(rec[0]), rec[2], marks);
    mark_if(needs_second(rec[0]), rec[3], marks);
}
