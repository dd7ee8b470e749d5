// Where the words of a row come from, and how many cells a line has.
ghost use Rattle.std.specs.Prelude.{◌≡◌, ◌^◌, ◌≤◌};
ghost use Rattle.tables.specs.Model.Notes.{look_in};
ghost use Rattle.flattening.specs.Model.Rows.{stepping, of, run_down, of_down};

use flattening::{Source, Words};
use records::notes;
use tables::Note;

// 2 to the power of w.
fn power(w: u8) -> usize
    requires { w ≤ 8 }
    ensures { result ≡ 2 ^ w }
{
    1 << w
}

// The cells of the line a.
pub fn size(types: &[Note], a: u64) -> usize
    requires { (look_in types.now a).iw ≤ 8 }
    ensures { result ≡ 2 ^ (look_in types.now a).iw }
{
    power(notes::look(types, a).iw)
}

// The cells of an array whose index sort is the line a.
pub fn index_size(types: &[Note], a: u64) -> usize
    requires { (look_in types.now a).w ≤ 8 }
    ensures { result ≡ 2 ^ (look_in types.now a).w }
{
    power(notes::look(types, a).w)
}

// A row of numbers, base + step * j.
pub fn run(base: u64, step: u64) -> Source
    ensures { result ≡ stepping base step }
{
    Source {
        words: Words::Numbers { base, step },
        top: None,
    }
}

// The cells of a line.
pub fn of(a: u64) -> Source
    ensures { result ≡ of a }
{
    Source {
        words: Words::Cells(a),
        top: None,
    }
}

// The same, falling from the place top.
pub fn run_down(base: u64, top: u64) -> Source
    ensures { result ≡ run_down base top }
{
    Source {
        words: Words::Numbers { base, step: 1 },
        top: Some(top),
    }
}

pub fn of_down(a: u64, top: u64) -> Source
    ensures { result ≡ of_down a top }
{
    Source {
        words: Words::Cells(a),
        top: Some(top),
    }
}
