// The records of a line: how many there are, whether there is room for them, and how they go into the table. A line has its own record and, before it, a not record for each
// minus operand.
#![tactic(auto)]

ghost use Rattle.std.specs.Prelude.{◌≡◌, false, ◌+◌, ◌≤◌, ◌<◌, length, get_or};
ghost use Rattle.tables.specs.Lines.{kind_in, first_in};
ghost use Rattle.tables.specs.Layout.{room as room_of};
ghost use Rattle.texts.specs.Minus.{minuses};
ghost use Rattle.texts.specs.Model.Structs.{signed_reply};
ghost use Rattle.texts.specs.Model.Stages.{fitted};
ghost use Rattle.texts.specs.Model.Filling.{filling, added, not_in, added_from, Ready};

use records::kinds::NOT;
use tables::{Note, Refusal, WORDS};
use texts::SignedRecord;

// How many operands have a minus.
fn count(minus: [bool; WORDS]) -> usize
    ensures { result ≡ minuses minus }
{
    usize::from(minus[2]) + usize::from(minus[3]) + usize::from(minus[4])
}

// What a line gives after n records, with room for `room` of them: 4 where there is none left for all of its records.
pub fn fit(
    own: Result<SignedRecord, Refusal>,
    n: usize,
    room: usize,
) -> Result<SignedRecord, Refusal>
    requires { n ≤ room }
    ensures { signed_reply result ≡ fitted n room (signed_reply own) }
{
    // What stays is handed on as it came: taken apart and made again, a record is moved twice.
    match own {
        Ok(r) if count(r.minus) < room - n => own,
        Ok(_) => Err(Refusal::NoRecordLeft),
        Err(_) => own,
    }
}

// A record goes to the table behind n others, and its line is noted.
fn put(table: &mut [u64], n: usize, rec: [u64; WORDS], id: u64, notes: &mut [Note])
    requires { (n < room_of false (length table.old)) × (kind_in rec ≡ 1 → first_in rec ≤ 64) }
    ensures { filling table.new notes.new (n + 1) ≡ added (filling table.old notes.old n) rec id }
{
    records::put_line(table, n, rec, id);
    let place = (n + 1) as u64;
    checks::note(false, rec, place, notes);
}

// The not record of the operand at the place j of a line's record goes behind n others. It is of the operand's own sort, and has no id.
fn put_not(table: &mut [u64], n: usize, rec: [u64; WORDS], j: usize, notes: &mut [Note])
    requires { (j < 5) × ((n < room_of false (length table.old)) × ((1 ≤ get_or rec j 0) × (get_or rec j 0 ≤ n))) }
    ensures { filling table.new notes.new (n + 1)
        ≡ added (filling table.old notes.old n) (not_in table.old (get_or rec j 0)) 0 }
{
    let a = rec[j];
    let h = records::step(false, table.len());
    let operand = records::record(false, table, h, (a - 1) as usize);
    put(table, n, records::of(NOT, operand[1], a, 0, 0), 0, notes);
}

// The records of a line go behind n others: a not record for each minus operand, in order, then the line's own, with the not records' places for those operands. Answers how
// many records there are then.
pub fn put_line(
    table: &mut [u64],
    n: usize,
    rec: [u64; WORDS],
    minus: [bool; WORDS],
    id: u64,
    notes: &mut [Note],
) -> usize
    requires { Ready minus 3 2 n (room_of false (length table.old)) rec }
    ensures { filling table.new notes.new result
        ≡ added_from minus 3 2 (filling table.old notes.old n) rec id }
{
    let mut own = rec;
    let mut k = n;
    for j in 2..WORDS {
        if minus[j] {
            put_not(table, k, own, j, notes);
            k += 1;
            own[j] = k as u64;
        }
    }
    put(table, k, own, id, notes);
    k + 1
}
