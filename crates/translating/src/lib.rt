// Translating a flat circuit into a program.
#![tactic(auto)]

mod make; // the program of an accepted table, where it fits

ghost use Rattle.std.specs.Prelude.{◌≡◌, [], ◌∷◌, length};
ghost use Rattle.tables.specs.Answers.{told};
ghost use Rattle.programs.specs.Answers.{translates};

use tables::Refusal;

// Translates the flat circuit of a table's first `count` records into a program, which goes to the target.
pub fn translate(table: &[u64], count: usize, target: &mut [u64]) -> Result<usize, Refusal>
    ensures { told result (target.new ∷ []) ≡ translates table.now count (length target.old) }
{
    records::clear(target);
    if !records::is_table(false, table.len()) || !records::is_table(true, target.len()) {
        return Err(Refusal::NotATable);
    }
    checks::accept(false, table, count)?;
    if passes::has_array(table, count) {
        return Err(Refusal::ArrayPresent);
    }
    make::make(table, count, target)
}
