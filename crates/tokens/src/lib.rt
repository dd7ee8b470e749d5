// Lines and tokens: places in a text, and in a line.
#![tactic(auto)]

pub mod numbers; // numbers in digits

ghost use Rattle.std.specs.Prelude.{◌≡◌, true, ◌+◌, ◌≤◌, ◌<◌, ◌-◌, min, length, drop, get_or, take};
ghost use Rattle.texts.specs.Split.{up_to, tokens};
ghost use Rattle.texts.specs.Model.Structs.{NextToken};

use texts::Part;

// Where the first b stands, from i on, or the length of s.
pub fn find_byte(s: &[u8], i: usize, b: u8) -> usize
    requires { i ≤ length s.now }
    ensures { (i ≤ result) × ((result ≤ length s.now) × (result ≡ i + length (up_to b (drop i s.now)))) }
{
    for j in i..s.len() {
        if s[j] == b {
            return j;
        }
    }
    s.len()
}

// The same, two bytes at a time.
fn find_two(s: &[u8], i: usize, b: u8) -> usize
    requires { i ≤ length s.now }
    ensures { (i ≤ result) × ((result ≤ length s.now) × (result ≡ i + length (up_to b (drop i s.now)))) }
{
    if s.len() == 0 {
        return i;
    }
    let e = s.len() - 1;
    let mut j = i;
    // a `while`, two bytes in a turn for speed: where it ends, find_byte goes on
    while j < e {
        if s[j] == b {
            return j;
        }
        if s[j + 1] == b {
            return j + 1;
        }
        j += 2;
    }
    find_byte(s, j, b)
}

// Whether none of the 16 bytes from i on is b. There is no way out of the loop before its end, so that it is compiled to one comparison of all 16. Only a yes is a promise:
// after a no the bytes are looked at one by one.
fn lacks(s: &[u8], i: usize, b: u8) -> bool
    requires { i + 16 ≤ length s.now }
    ensures { result ≡ true → length (up_to b (drop i s.now)) ≡ 16 + length (up_to b (drop (i + 16) s.now)) }
{
    let mut none = true;
    for x in &s[i..i + 16] {
        if *x == b {
            none = false;
        }
    }
    none
}

// The place behind those of the blocks of 16 bytes from i on that lack b, as far as e.
fn pass_blocks(s: &[u8], i: usize, e: usize, b: u8) -> usize
    requires { (i ≤ e) × (e ≤ length s.now) }
    ensures { (i ≤ result) × ((result ≤ length s.now) × (i + length (up_to b (drop i s.now)) ≡ result + length (up_to b (drop result s.now)))) }
{
    let mut j = i;
    // a `while`, a block in a turn for speed: the place where it ends is the answer
    while j < e && 16 <= s.len() - j && lacks(s, j, b) {
        j += 16;
    }
    j
}

// The same as find_byte, for ways that may be long.
pub fn find_far(s: &[u8], i: usize, b: u8) -> usize
    requires { i ≤ length s.now }
    ensures { (i ≤ result) × ((result ≤ length s.now) × (result ≡ i + length (up_to b (drop i s.now)))) }
{
    let j = pass_blocks(s, i, s.len(), b);
    find_two(s, j, b)
}

// Whether b is none of the bytes from j on, which are less than a block: asked of the last 16 bytes, where a block has been passed since i.
fn rest_lacks(s: &[u8], i: usize, j: usize, b: u8) -> bool
    requires { (i ≤ j) × (j ≤ length s.now) }
    ensures { result ≡ true → j + length (up_to b (drop j s.now)) ≡ length s.now }
{
    16 <= j - i && s.len() - j < 16 && lacks(s, s.len() - 16, b)
}

// The same as find_far, where b is likely to be missing.
fn find_rare(s: &[u8], i: usize, b: u8) -> usize
    requires { i ≤ length s.now }
    ensures { (i ≤ result) × ((result ≤ length s.now) × (result ≡ i + length (up_to b (drop i s.now)))) }
{
    let j = pass_blocks(s, i, s.len(), b);
    if rest_lacks(s, i, j, b) {
        return s.len();
    }
    find_two(s, j, b)
}

// The first place from i on that holds no space, or the length of s.
pub fn skip(s: &[u8], i: usize) -> usize
    requires { i ≤ length s.now }
    ensures { (i ≤ result) × ((result ≤ length s.now)
        × ((tokens (drop result s.now) ≡ tokens (drop i s.now))
        × (result < length s.now → get_or s.now result 0 ≡ 32 → ⊥))) }
{
    for j in i..s.len() {
        if s[j] != b' ' {
            return j;
        }
    }
    s.len()
}

// Where the comment of the line from i to e starts, or e.
pub fn cut(s: &[u8], i: usize, e: usize) -> usize
    requires { (i ≤ e) × (e ≤ length s.now) }
    ensures { (i ≤ result) × ((result ≤ e) × (take (result - i) (drop i s.now) ≡ up_to 59 (take (e - i) (drop i s.now)))) }
{
    let j = pass_blocks(s, i, e, b';');
    if e <= j {
        return e;
    }
    j + find_two(&s[j..e], 0, b';')
}

// The place behind a line that ends at e. The test comes first: at the largest number e + 1 has no value.
pub fn after(e: usize, len: usize) -> usize
    ensures { result ≡ min (e + 1) len }
{
    if e < len { e + 1 } else { len }
}

// The first token from the place i on; an empty part at the line's end where there is none.
pub fn next(l: &[u8], i: usize) -> Part
    requires { i ≤ length l.now }
    ensures { (result.from ≤ result.to) × ((result.to ≤ length l.now) × NextToken l.now i result.from result.to) }
{
    let a = skip(l, i);
    if a == l.len() {
        return Part { from: a, to: a };
    }
    let z = find_rare(l, a, b' ');
    Part { from: a, to: z }
}
