// What a check keeps of each line, at the line's number: its type, and of a state whether it has had an init line and a next line.
ghost use Rattle.std.specs.Prelude.{◌≡◌, set};
ghost use Rattle.tables.specs.Model.Notes.{note_at, look_in, typed as typed_of, with_flag as flagged_of, flagged_by};
ghost use Rattle.tables.specs.Lines.{init_or_next_kind};

use tables::{BLANK, Note, Ty, WORDS};

// The note of the line a; of no line past the end.
pub fn at(notes: &[Note], a: u64) -> Note
    ensures { result ≡ note_at notes.now a }
{
    notes.get(a as usize).copied().unwrap_or(BLANK)
}

// The type of the line a.
pub fn look(notes: &[Note], a: u64) -> Ty
    ensures { result ≡ look_in notes.now a }
{
    at(notes, a).ty
}

// A note goes to the line n; a place past the end is left.
fn put(notes: &mut [Note], n: u64, r: Note)
    ensures { notes.new ≡ set notes.old n r }
{
    // A test and a store: of a slice after its `get_mut` a proof knows the length, and no entry.
    let i = n as usize;
    if i < notes.len() {
        notes[i] = r;
    }
}

// A type goes to the line n.
pub fn put_type(notes: &mut [Note], n: u64, ty: Ty)
    ensures { notes.new ≡ set notes.old n (typed_of ty (note_at notes.old n)) }
{
    let r = at(notes, n);
    put(notes, n, Note { ty, ..r });
}

// A note with the flag of an init, or of a next.
fn flagged(init: bool, r: Note) -> Note
    ensures { result ≡ flagged_of init r }
{
    if init {
        Note {
            has_init: true,
            ..r
        }
    } else {
        Note {
            has_next: true,
            ..r
        }
    }
}

// A record of the kind k, an init or a next, flags its state.
pub fn flag(init: bool, k: u64, rec: [u64; WORDS], notes: &mut [Note])
    requires { k ≡ init_or_next_kind init }
    ensures { notes.new ≡ flagged_by init rec notes.old }
{
    if rec[0] == k {
        let r = at(notes, rec[2]);
        put(notes, rec[2], flagged(init, r));
    }
}
