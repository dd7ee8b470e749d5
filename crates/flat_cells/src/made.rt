// What lines leave.
ghost use Rattle.std.specs.Prelude.{◌≡◌, None};
ghost use Rattle.flattening.specs.Model.Lines.{made_as};

use flattening::Made;

// A line without a value: nothing is kept of it.
pub fn nothing(next: usize) -> Made
    ensures { result ≡ made_as next 0 0 None 0 None }
{
    Made {
        next,
        at: 0,
        bit: 0,
        old: None,
        key: 0,
        con: None,
    }
}

// A value whose cells are the flat lines from `at` on, of a sort with the width-1 sort line `bit`.
pub fn value(next: usize, at: u64, bit: u64) -> Made
    ensures { result ≡ made_as next at bit None 1 None }
{
    Made {
        at,
        bit,
        key: 1,
        ..nothing(next)
    }
}
