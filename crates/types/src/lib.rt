// Types of lines: what is known of a line before anything is computed.
#![tactic(auto)]

ghost use Rattle.std.specs.Prelude.{◌≡◌, ◌||◌, ◌≤◌, ◌<◌};
ghost use Rattle.tables.specs.Model.Notes.{look_in};
ghost use Rattle.tables.specs.declared.Role.TheVariants.{Sort};
ghost use Rattle.tables.specs.Types.{sort_at, is_sort, is_value, is_state, is_word, is_array, is_word_sort, is_array_sort, marked as marked_of, ty, value_role, type_of};
ghost use Rattle.tables.specs.Lines.{line_of, kind_in, first_in};

use records::notes;
use tables::{Note, Role, Ty, WORDS};

// No sort and no value.
const NO_TYPE: Ty = Ty {
    role: Role::Other,
    iw: 0,
    w: 0,
};

// The sort of the words of w bits.
fn word_sort(w: u8) -> Ty
    ensures { result ≡ ty Sort 0 w }
{
    Ty {
        role: Role::Sort,
        iw: 0,
        w,
    }
}

// The sort that a line's second word names: in a program the word is the width.
pub fn sort_at(program: bool, notes: &[Note], s: u64) -> Ty
    ensures { result ≡ sort_at program (look_in notes.now) s }
{
    if !program {
        return notes::look(notes, s);
    }
    match s {
        1..=64 => word_sort(s as u8),
        _ => NO_TYPE,
    }
}

pub fn is_sort(t: Ty) -> bool
    ensures { result ≡ is_sort t }
{
    t.role == Role::Sort
}

// A value, marked or not.
pub fn is_value(t: Ty) -> bool
    ensures { result ≡ is_value t }
{
    t.role >= Role::Unmarked
}

pub fn is_state(t: Ty) -> bool
    ensures { result ≡ is_state t }
{
    t.role == Role::State
}

pub fn is_word(t: Ty) -> bool
    ensures { result ≡ is_word t }
{
    is_value(t) && t.iw == 0
}

pub fn is_array(t: Ty) -> bool
    ensures { result ≡ is_array t }
{
    is_value(t) && 0 < t.iw
}

pub fn is_word_sort(t: Ty) -> bool
    ensures { result ≡ is_word_sort t }
{
    is_sort(t) && t.iw == 0
}

pub fn is_array_sort(t: Ty) -> bool
    ensures { result ≡ is_array_sort t }
{
    is_sort(t) && 0 < t.iw
}

// The line is, or has beneath it, an input or a state.
pub fn marked(t: Ty) -> bool
    ensures { result ≡ marked_of t }
{
    t.role >= Role::Marked
}

// A value of the sort t, marked or not.
fn value(mark: bool, t: Ty) -> Ty
    ensures { result ≡ ty (value_role mark) t.iw t.w }
{
    Ty {
        role: if mark { Role::Marked } else { Role::Unmarked },
        ..t
    }
}

// The type of a record's line, from those of its sort and its operands.
pub fn type_of(rec: [u64; WORDS], t: Ty, a: Ty, b: Ty, c: Ty) -> Ty
    requires { kind_in rec ≡ 1 → first_in rec ≤ 64 }
    ensures { result ≡ type_of (line_of rec) t a b c }
{
    let k = rec[0];
    // by the kinds' numbers, which the C interface fixes
    match k {
        1 => word_sort(rec[2] as u8),
        2 => Ty {
            role: Role::Sort,
            iw: a.w,
            w: b.w,
        },
        3 => value(false, t),
        4 => value(true, t),
        5 => Ty {
            role: Role::State,
            ..t
        },
        11..=20 | 56 => value(marked(a), t),
        53 | 55 => value(marked(a) || marked(b) || marked(c), t),
        21..=52 | 54 | 57..=63 => value(marked(a) || marked(b), t),
        _ => NO_TYPE,
    }
}
