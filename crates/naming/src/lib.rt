// Names: the extra token of a line, as a part of the text.
#![tactic(auto)]

ghost use Rattle.std.specs.Prelude.{◌≡◌, ◌≤◌, ◌<◌, ◌-◌, length, drop, take};
ghost use Rattle.texts.specs.Split.{tokens as tokens_in};
ghost use Rattle.texts.specs.Names.{only as only_of};
ghost use Rattle.texts.specs.Reading.{line_name};
ghost use Rattle.texts.specs.Naming.{leads as leads_by, name_of, name_place};
ghost use Rattle.texts.specs.Model.Ends.{tokens_end};

use forms::heads;
use records::kinds;
use texts::Part;

// The place behind m tokens from the place i on, or the line's end where there are fewer.
fn pass(l: &[u8], i: usize, m: usize) -> usize
    requires { i ≤ length l.now }
    ensures { (result ≤ length l.now) × (tokens_in (drop result l.now) ≡ drop m (tokens_in (drop i l.now))) }
{
    let mut at = i;
    for _passed in 0..m {
        let a = tokens::skip(l, at);
        if a == l.len() {
            return a;
        }
        at = tokens::find_byte(l, a, 32);
    }
    at
}

// The token that stands alone from the place i on, or an empty part. It is the line's last.
fn only(l: &[u8], i: usize) -> Part
    requires { i ≤ length l.now }
    ensures { (result.from ≤ result.to) × ((result.to ≤ length l.now)
        × ((take (result.to - result.from) (drop result.from l.now) ≡ only_of (tokens_in (drop i l.now)))
        × (result.from < result.to → result.to ≡ tokens_end l.now))) }
{
    let a = tokens::skip(l, i);
    if a == l.len() {
        return Part { from: 0, to: 0 };
    }
    let z = tokens::find_byte(l, a, 32);
    let b = tokens::skip(l, z);
    if b == l.len() {
        return Part { from: a, to: z };
    }
    Part { from: 0, to: 0 }
}

// The name in a line, which is its last token.
fn part(l: &[u8]) -> Part
    ensures { (result.from ≤ result.to) × ((result.to ≤ length l.now)
        × ((take (result.to - result.from) (drop result.from l.now) ≡ line_name (tokens_in l.now))
        × (result.from < result.to → result.to ≡ tokens_end l.now))) }
{
    let kinds = kinds::all();
    let i = pass(l, 0, 1);
    let Some(w) = heads::word(&kinds, l, i) else {
        return Part { from: 0, to: 0 };
    };
    let row = forms::row(&kinds, w.form);
    let s = forms::sorted(row);
    let c = usize::from(kinds::operand_count(row));
    let p = pass(l, w.at, s + c);
    only(l, p)
}

// The id of a line is the number n.
fn leads(l: &[u8], n: u64) -> bool
    ensures { result ≡ leads_by n (tokens_in l.now) }
{
    let a = tokens::skip(l, 0);
    a < l.len() && heads::is_id(&l[a..tokens::find_byte(l, a, 32)], n)
}

// The name of the first line whose id is n, and where it starts in the text.
pub fn find(text: &[u8], n: u64) -> Part
    ensures { (result.from ≤ result.to) × ((result.to ≤ length text.now)
        × ((take (result.to - result.from) (drop result.from text.now) ≡ name_of text.now n)
        × (0 < length (name_of text.now n) → result.from ≡ name_place text.now n))) }
{
    // a `while`: the place goes from line to line, whose ends the search finds
    let mut i = 0;
    while i < text.len() {
        let e = tokens::find_byte(text, i, 10);
        let z = tokens::cut(text, i, e);
        if leads(&text[i..z], n) {
            let p = part(&text[i..z]);
            return Part {
                from: i + p.from,
                to: i + p.to,
            };
        }
        i = tokens::after(e, text.len());
    }
    Part { from: 0, to: 0 }
}

// The name of the first line whose id is the given number, as that part of the text; an empty part where it has none.
pub fn name(text: &[u8], id: u64) -> &[u8]
    ensures { result.now ≡ name_of text.now id }
{
    let p = find(text, id);
    &text[p.from..p.to]
}
