// The rules 8, 9 and 10 for a record after earlier lines. t is the type of its sort, a, b and c are those of its operands.
#![tactic(auto)]

ghost use Rattle.std.specs.Prelude.{◌≡◌};
ghost use Rattle.tables.specs.Rules.{suits as suits_of, classes, once_rules, fault as fault_of, refused_by};
ghost use Rattle.tables.specs.Pick.{all};
ghost use Rattle.tables.specs.Lines.{line_of, kind_in};
ghost use Rattle.tables.specs.Model.Notes.{given_in, look_in};
ghost use Rattle.tables.specs.Kinds.{row_of};

use records::kinds::{ARRAY, ASORT, SORT, STATE, VALUE, WORD, WSORT};
use records::{kinds, notes};
use tables::{Note, Refusal, Ty, WORDS};

// A line of the type t may stand where the class k is asked for.
#[tactic(auto, unfolding(tables::specs::Rules::suits))]
fn suits(k: u8, t: Ty) -> bool
    ensures { result ≡ suits_of k t }
{
    match k {
        WORD => types::is_word(t),
        ARRAY => types::is_array(t),
        VALUE => types::is_value(t),
        STATE => types::is_state(t),
        WSORT => types::is_word_sort(t),
        ASORT => types::is_array_sort(t),
        SORT => types::is_sort(t),
        _ => true,
    }
}

// Rule 8, by the row of the kind.
fn classed(row: [u8; 16], t: Ty, a: Ty, b: Ty, c: Ty) -> bool
    ensures { result ≡ all (classes row t a b c) }
{
    suits(kinds::sort_class(row), t)
        && suits(kinds::first_class(row), a)
        && suits(kinds::second_class(row), b)
        && suits(kinds::third_class(row), c)
}

// Rule 10, by the kinds' numbers, which the C interface fixes: b is the type of the second operand. Of an init's value one mark is looked at.
fn once(rec: [u64; WORDS], b: Ty, notes: &[Note]) -> bool
    ensures { result ≡ all (once_rules (line_of rec) (given_in notes.now) b) }
{
    let state = notes::at(notes, rec[2]);
    match rec[0] {
        6 => !state.has_init && rec[3] < rec[2] && !types::marked(b),
        7 => !state.has_next,
        _ => true,
    }
}

// The first of 8, 9 and 10 that holds of a record after the lines that the notes hold. The row is that of its kind.
pub fn fault(program: bool, row: [u8; 16], rec: [u64; WORDS], notes: &[Note]) -> Result<(), Refusal>
    requires { row ≡ row_of (kind_in rec) }
    ensures { result ≡ refused_by (fault_of program (look_in notes.now) (given_in notes.now) rec) }
{
    let t = types::sort_at(program, notes, rec[1]);
    let a = notes::look(notes, rec[2]);
    let b = notes::look(notes, rec[3]);
    let c = notes::look(notes, rec[4]);
    if !classed(row, t, a, b, c) {
        return Err(Refusal::WrongClass);
    }
    if !widths::fits(rec, t, a, b, c) {
        return Err(Refusal::Misfit);
    }
    if !once(rec, b, notes) {
        return Err(Refusal::InitOrNext);
    }
    Ok(())
}
