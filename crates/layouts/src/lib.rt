// Conversions between the two layouts: records one behind the other, and columns.
#![tactic(auto)]

ghost use Rattle.std.specs.Prelude.{◌≡◌, not, [], ◌∷◌, ℕ, ◌+◌, ◌*◌, ◌<◌, ◌≤◌, length, replicate};
ghost use Rattle.tables.specs.Answers.{told};
ghost use Rattle.tables.specs.Tables.{broken as broken_by};
ghost use Rattle.tables.specs.Layout.{held, placing_in, words_from, set_words, filled_by};
ghost use Rattle.layouts.specs.Conversion.{rows_in, converted, converts};

use tables::Refusal;

// The first `count` records of a list go to the target: to columns, from records one behind the other, or back.
pub fn convert(
    columns: bool,
    program: bool,
    list: &[u64],
    count: usize,
    target: &mut [u64],
) -> Result<usize, Refusal>
    ensures { told result (target.new ∷ []) ≡ converts columns program list.now count (length target.old) }
{
    records::clear(target);
    let n = judge(program, list.len(), count, target.len())?;
    carry(columns, program, list, count, target);
    Ok(n)
}

// The answer, for a list and a target of so many words.
fn judge(program: bool, words: usize, count: usize, len: usize) -> Result<usize, Refusal>
    ensures { result ≡ converted program words count len }
{
    if !records::is_table(program, words) {
        return Err(Refusal::NotATable);
    }
    if !records::is_table(program, len) {
        return Err(Refusal::NotATable);
    }
    if records::room_of(program, words) < count {
        return Err(checks::broken(program));
    }
    if records::room_of(program, len) < count {
        return Err(Refusal::TargetTooSmall);
    }
    Ok(count)
}

// All words of so many records go to the target, which is zero.
fn carry(columns: bool, program: bool, list: &[u64], count: usize, target: &mut [u64])
    requires { (count ≤ held program (length list.now)) × ((count ≤ held program (length target.old)) × (target.old ≡ replicate (length target.old) 0)) }
    ensures { target.new ≡ filled_by (placing_in columns program) (length target.old) (rows_in (not columns) program list.now count) }
{
    let size = records::size(program);
    let a = records::strides_of(!columns, program, list.len());
    let b = records::strides_of(columns, program, target.len());
    for i in 0..count {
        copy(list, a.row * i, a.word, target, b.row * i, b.word, size);
    }
}

// m words of a list, the first at the place x and each s behind the one before, go to the target, to y and each z behind the one before.
fn copy(list: &[u64], x: usize, s: usize, target: &mut [u64], y: usize, z: usize, m: usize)
    requires { ((j : ℕ) → j < m → s * j + x < length list.now) × ((j : ℕ) → j < m → z * j + y < length target.old) }
    ensures { target.new ≡ set_words (λ (j : ℕ). z * j + y) target.old 0 (words_from (λ (j : ℕ). s * j + x) list.now 0 m) }
{
    for j in 0..m {
        target[z * j + y] = list[s * j + x];
    }
}
