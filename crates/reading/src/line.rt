// A line of a text: 3, 4 and 5, then what stands behind the word; and of a line that gives a record 22, and 4 again.
ghost use Rattle.std.specs.Prelude.{◌≡◌, ℕ, ◌+◌, ◌-◌, ◌≤◌, ◌<◌, length, take, drop, Ok};
ghost use Rattle.tables.specs.Kinds.{rows};
ghost use Rattle.tables.specs.Layout.{ids_of};
ghost use Rattle.tables.specs.Model.Notes.{look_in, given_in};
ghost use Rattle.tables.specs.Model.Risen.{Risen};
ghost use Rattle.texts.specs.Split.{tokens as tokens_in};
ghost use Rattle.texts.specs.Reading.{name_in};
ghost use Rattle.texts.specs.Model.Stages.{ended, taken_in, judged_line};
ghost use Rattle.texts.specs.Model.Structs.{signed_reply, line_reply, Gives, Labelled, Admits};
ghost use Rattle.texts.specs.Model.Chains.{Chained, HasRoom};

use forms::heads;
use tables::{Note, Refusal};
use texts::{LineRead, Part, SignedRecord};

// What stands behind the word of a line with the given id, whose form is f: 6 to 10. kinds are the rows of all kinds.
fn behind_word(
    l: &[u8],
    kinds: &[[u8; 16]; 63],
    f: usize,
    at: usize,
    id: u64,
    table: &[u64],
    n: usize,
    notes: &[Note],
) -> LineRead
    requires { (kinds.now ≡ rows) × ((at ≤ length l.now) × ((1 ≤ f) × ((f ≤ 68) × (((a : ℕ) → (look_in notes.now a).w ≤ 64) × Risen table.now n)))) }
    ensures { (signed_reply result.own ≡ ended (look_in notes.now) (given_in notes.now) (ids_of table.now n) f (taken_in f (tokens_in (drop at l.now))))
        × ((o : SignedRecord) → result.own ≡ Ok o → (result.id ≡ id) × ((result.name.from ≤ result.name.to) × ((result.name.to ≤ length l.now)
        × (take (result.name.to - result.name.from) (drop result.name.from l.now) ≡ name_in f (tokens_in (drop at l.now)))))) }
{
    let Some(t) = stages::take(l, kinds, f, at) else {
        return LineRead {
            own: Err(Refusal::BadOperand),
            id,
            name: Part { from: 0, to: 0 },
        };
    };
    let name = tokens::next(l, t.at);
    let crowded = tokens::skip(l, name.to) < l.len();
    let own = stages::finish(l, kinds, f, t, crowded, table, n, notes);
    LineRead { own, id, name }
}

// A line, after n records of the table, with room for `room` of them; kinds are the rows of all kinds.
pub fn read_line(
    l: &[u8],
    kinds: &[[u8; 16]; 63],
    table: &[u64],
    n: usize,
    room: usize,
    notes: &[Note],
) -> Result<Option<LineRead>, Refusal>
    requires { (kinds.now ≡ rows) × (Risen table.now n × ((a : ℕ) → (look_in notes.now a).w ≤ 64)) }
    ensures { (line_reply result ≡ judged_line (look_in notes.now) (given_in notes.now) (ids_of table.now n) room (tokens_in l.now))
        × ((x : LineRead) (o : SignedRecord) → Gives result x o → Labelled l.now x) }
{
    let a = tokens::skip(l, 0);
    if a == l.len() {
        return Ok(None);
    }
    let z = tokens::find_byte(l, a, 32);
    let last = ids::last(table, n);
    let Some(id) = heads::next_id(&l[a..z], last) else {
        return Err(Refusal::WrongId);
    };
    if room <= n {
        return Err(Refusal::NoRecordLeft);
    }
    let Some(w) = heads::word(kinds, l, z) else {
        return Err(Refusal::UnknownWord);
    };
    Ok(Some(behind_word(l, kinds, w.form, w.at, id, table, n, notes)))
}

// What a line gives that starts at the place i of the text, after n records, with room for `room` of them: its record and its id; 22 where its name already stands on an
// earlier line, 4 where no room is left for all of its records. A name that is new goes behind the others.
pub fn admit(
    text: &[u8],
    i: usize,
    line: Result<Option<LineRead>, Refusal>,
    n: usize,
    room: usize,
    names: &mut [u16],
) -> Result<Option<(SignedRecord, u64)>, Refusal>
    requires { (n ≤ room) × ((length text.now ≤ 65536) × (Chained text.now names.old
        × ((x : LineRead) (o : SignedRecord) → Gives line x o → (x.name.from ≤ x.name.to) × ((i + x.name.to ≤ length text.now) × (x.name.from < x.name.to → HasRoom names.old))))) }
    ensures { Admits text.now names.old names.new i n room line result }
{
    // A `match` and no `?`, which moves the record once more on its way; so too below.
    let found = match line {
        Ok(found) => found,
        Err(refusal) => return Err(refusal),
    };
    let Some(read) = found else {
        return Ok(None);
    };
    let name = read.name;
    if read.own.is_ok()
        && name.from < name.to
        && !names::enter(text, i + name.from, i + name.to, names)
    {
        return Err(Refusal::NameUsed);
    }
    match line_records::fit(read.own, n, room) {
        Ok(own) => Ok(Some((own, read.id))),
        Err(refusal) => Err(refusal),
    }
}
