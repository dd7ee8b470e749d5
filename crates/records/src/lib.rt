// Records in a table: the one place in the code that knows where the words of a record lie, and which is which.
#![tactic(auto)]

pub mod bytes; // lists of bytes
pub mod ids; // the ids of a circuit's lines
pub mod kinds; // the constant table of kinds
pub mod notes; // what a check keeps of each line

ghost use Rattle.std.specs.Prelude.{◌≡◌, ℕ, ◌<◌, ◌+◌, ◌*◌, length, replicate, false};
ghost use Rattle.tables.specs.Lines.{fields, kind_in};
ghost use Rattle.tables.specs.Layout.{record_size, whole, held, room, placing_in, step_of, record_at, id_at, with_id, recorded};

use tables::WORDS;

// The record of the kind k, the sort line s and the operands a, b and c.
pub fn of(k: u64, s: u64, a: u64, b: u64, c: u64) -> [u64; WORDS]
    ensures { result ≡ fields k s a b c }
{
    [k, s, a, b, c]
}

// The words of a record in a list: a circuit's has its id too.
pub fn size(program: bool) -> usize
    ensures { result ≡ record_size program }
{
    if program { WORDS } else { WORDS + 1 }
}

// A list of so many words holds a whole number of records.
pub fn is_table(program: bool, len: usize) -> bool
    ensures { result ≡ whole program len }
{
    len % size(program) == 0
}

// What a pass over a list of so many words works out once, for `record`: the length of a column, the number of records that the list holds.
pub fn step(program: bool, len: usize) -> usize
    ensures { result ≡ step_of program len }
{
    len / size(program)
}

// The records that a list of so many words holds, and that may count.
pub fn room_of(program: bool, len: usize) -> usize
    ensures { result ≡ room program len }
{
    step(program, len).min(16384)
}

// The record at the place i, from 0; h is the list's step.
pub fn record(program: bool, table: &[u64], h: usize, i: usize) -> [u64; WORDS]
    requires { (i < held program (length table.now)) × (h ≡ step_of program (length table.now)) }
    ensures { result ≡ record_at program table.now i }
{
    [
        table[i],
        table[h + i],
        table[2 * h + i],
        table[3 * h + i],
        table[4 * h + i],
    ]
}

// The kind of the record at the place i. A pass over kinds alone reads one column.
pub fn kind(program: bool, table: &[u64], i: usize) -> u64
    requires { i < held program (length table.now) }
    ensures { result ≡ kind_in (record_at program table.now i) }
{
    table[i]
}

// The id of the record at the place i of a circuit's list; h is the list's step.
pub fn id(table: &[u64], h: usize, i: usize) -> u64
    requires { (i < held false (length table.now)) × (h ≡ step_of false (length table.now)) }
    ensures { result ≡ id_at table.now i }
{
    table[WORDS * h + i]
}

// The five words of a record go to the place i.
pub fn put(program: bool, table: &mut [u64], i: usize, rec: [u64; WORDS])
    requires { i < held program (length table.old) }
    ensures { table.new ≡ recorded program table.old i rec }
{
    let h = step(program, table.len());
    for (j, word) in rec.iter().enumerate() {
        table[h * j + i] = *word;
    }
}

// A record of a circuit goes to the place i, with its id.
pub fn put_line(table: &mut [u64], i: usize, rec: [u64; WORDS], id: u64)
    requires { i < held false (length table.old) }
    ensures { table.new ≡ recorded false table.old i (with_id rec id) }
{
    put(false, table, i, rec);
    let h = step(false, table.len());
    table[WORDS * h + i] = id;
}

// How far apart neighbouring records of a list stand, and neighbouring words of a record.
#[derive(Clone, Copy)]
pub struct Strides {
    pub row: usize,
    pub word: usize,
}

// The strides of a list of so many words that holds records in columns, or one record behind the other.
pub fn strides_of(columns: bool, program: bool, len: usize) -> Strides
    ensures { (i j : ℕ) → result.word * j + result.row * i ≡ placing_in columns program len i j }
{
    if columns {
        Strides {
            row: 1,
            word: step(program, len),
        }
    } else {
        Strides {
            row: size(program),
            word: 1,
        }
    }
}

// Every word is 0.
pub fn clear(table: &mut [u64])
    ensures { table.new ≡ replicate (length table.old) 0 }
{
    table.fill(0);
}
