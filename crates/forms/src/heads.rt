// The head of a line: its id and its word.
ghost use Rattle.std.specs.Prelude.{◌≡◌, ◌≤◌, length, drop, IfSome};
ghost use Rattle.tables.specs.Kinds.{rows};
ghost use Rattle.texts.specs.Split.{tokens as tokens_in};
ghost use Rattle.texts.specs.Reading.{word_in};
ghost use Rattle.texts.specs.Naming.{is_id};
ghost use Rattle.texts.specs.Model.Structs.{as_word, NextId};
ghost use Rattle.texts.specs.Decimal.{decimal};

use crate::{find, find_kind, is_sort};
use records::ids;
use texts::Form;
use tokens::numbers;

// The line's word, from the place i on; kinds are the rows of all kinds.
pub fn word(kinds: &[[u8; 16]; 63], l: &[u8], i: usize) -> Option<Form>
    requires { (kinds.now ≡ rows) × (i ≤ length l.now) }
    ensures { (word_in (tokens_in (drop i l.now)) ≡ as_word l.now result)
        × IfSome result (λ w. (w.at ≤ length l.now) × ((1 ≤ w.form) × (w.form ≤ 68))) }
{
    let a = tokens::skip(l, i);
    if a == l.len() {
        return None;
    }
    let z = tokens::find_byte(l, a, b' ');
    if !is_sort(&l[a..z]) {
        let f = find(kinds, &l[a..z])?;
        return Some(Form { form: f, at: z });
    }
    let b = tokens::skip(l, z);
    if b == l.len() {
        return None;
    }
    let y = tokens::find_byte(l, b, b' ');
    let f = find_kind(kinds, &l[b..y], 1, 2)?;
    Some(Form { form: f, at: y })
}

// The token is the number n.
pub fn is_id(t: &[u8], n: u64) -> bool
    ensures { result ≡ is_id (decimal t.now) n }
{
    match numbers::decimal(t) {
        Ok(v) => v == n,
        Err(_) => false,
    }
}

// The token as the id of a line behind one whose id is last.
pub fn next_id(t: &[u8], last: u64) -> Option<u64>
    ensures { NextId (decimal t.now) last result }
{
    match numbers::decimal(t) {
        Ok(v) if ids::follows(last, v) => Some(v),
        _ => None,
    }
}
