// Names: whether one is already there. They are kept in one list, chained by hash, as parts of the text.
#![tactic(auto)]

ghost use Rattle.std.specs.Prelude.{◌≡◌, true, not, ◌∷◌, ◌+◌, ◌-◌, ◌≤◌, ◌<◌, length, take, drop, get_or};
ghost use Rattle.texts.specs.Split.{same_bytes};
ghost use Rattle.texts.specs.Names.{among};
ghost use Rattle.texts.specs.Model.Chains.{hashes, hash_from, hash_of, count_in, names_in, Chained, HasRoom};

// The hashes of names are below this.
const HASHES: usize = 1024;

// The hash of a name by the bytes before the place `from`, each step-th one, where `start` is that of those behind.
fn hash_rest(t: &[u8], step: usize, start: usize, from: usize) -> usize
    requires { (1 ≤ step) × (start < hashes) × (from ≤ length t.now) }
    ensures { (result ≡ hash_from from step t.now start from) × (result < hashes) }
{
    let mut h = start;
    let mut p = from;
    // a `while`: a range that goes down by `step` as far as `step` says it less plainly
    while step <= p {
        h = (h * 37 + usize::from(t[p - 1])) % HASHES;
        p -= step;
    }
    h
}

// The hash of a name.
fn hash(t: &[u8]) -> usize
    requires { length t.now ≤ 65536 }
    ensures { (result ≡ hash_of t.now) × (result < hashes) }
{
    let step = t.len() / 32 + 1;
    let mut h = t.len() % HASHES;
    let mut p = t.len();
    // a `while`, four bytes in a turn for speed: where it ends, hash_rest goes on
    while 4 * step <= p {
        let a = usize::from(t[p - 1]);
        let b = usize::from(t[p - step - 1]);
        let c = usize::from(t[p - 2 * step - 1]);
        let d = usize::from(t[p - 3 * step - 1]);
        h = (h * 1874161 + a * 50653 + b * 1369 + c * 37 + d) % HASHES;
        p -= 4 * step;
    }
    hash_rest(t, step, h, p)
}

// Two names are the same.
fn same(t: &[u8], u: &[u8]) -> bool
    ensures { result ≡ same_bytes t.now u.now }
{
    t == u
}

// Whether the bytes of the text from `from` to `to`, whose hash is h, are one of the names.
fn seen(text: &[u8], from: usize, to: usize, h: usize, names: &[u16]) -> bool
    requires { (from ≤ to) × (to ≤ length text.now) × (h ≡ hash_of (take (to - from) (drop from text.now))) × (h < hashes) × Chained text.now names.now }
    ensures { result ≡ among (take (to - from) (drop from text.now)) (names_in text.now names.now) }
{
    let mut i = usize::from(names[h]);
    // a `while` along a chain of the list: there is no heap for a map, and the list's memory is fixed
    while i != 0 {
        let at = HASHES - 2 + 3 * i;
        let a = usize::from(names[at + 1]);
        let z = usize::from(names[at + 2]);
        if same(&text[from..to], &text[a..z + 1]) {
            return true;
        }
        i = usize::from(names[at]);
    }
    false
}

// The bytes of the text from `from` to `to`, whose hash is h, go behind the names.
fn add(text: &[u8], from: usize, to: usize, h: usize, names: &mut [u16])
    requires { (from < to) × (to ≤ length text.now) × (length text.now ≤ 65536) × (h ≡ hash_of (take (to - from) (drop from text.now))) × (h < hashes)
        × Chained text.now names.old × HasRoom names.old }
    ensures { Chained text.now names.new
        × (names_in text.now names.new ≡ take (to - from) (drop from text.now) ∷ names_in text.now names.old)
        × (count_in names.new ≡ count_in names.old + 1) }
{
    let n = usize::from(names[HASHES]) + 1;
    let at = HASHES - 2 + 3 * n;
    names[at] = names[h];
    names[at + 1] = from as u16;
    names[at + 2] = (to - 1) as u16;
    names[h] = n as u16;
    names[HASHES] = n as u16;
}

// Puts the bytes of the text from `from` to `to` behind the names, unless they are one of them already; answers whether they were put.
pub fn enter(text: &[u8], from: usize, to: usize, names: &mut [u16]) -> bool
    requires { (from < to) × (to ≤ length text.now) × (length text.now ≤ 65536) × Chained text.now names.old × HasRoom names.old }
    ensures { (result ≡ not (among (take (to - from) (drop from text.now)) (names_in text.now names.old)))
        × (result ≡ true → Chained text.now names.new
        × (names_in text.now names.new ≡ take (to - from) (drop from text.now) ∷ names_in text.now names.old)
        × (count_in names.new ≡ count_in names.old + 1)) }
{
    let h = hash(&text[from..to]);
    if seen(text, from, to, h, names) {
        return false;
    }
    add(text, from, to, h, names);
    true
}
