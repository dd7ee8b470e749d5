// Lists with an entry for each line number.
ghost use Rattle.std.specs.Prelude.{◌≡◌, get_or, set};

// The entry of the line a; the default past the end.
pub fn at<T: Copy>(xs: &[T], a: u64, default: T) -> T
    ensures { result ≡ get_or xs.now a default }
{
    xs.get(a as usize).copied().unwrap_or(default)
}

// The entry of the line n; a place past the end is left.
pub fn put<T: Copy>(xs: &mut [T], n: u64, v: T)
    ensures { xs.new ≡ set xs.old n v }
{
    let i = n as usize;
    // A test and a store: of a slice after its `get_mut` a proof knows the length, and no entry.
    if i < xs.len() {
        xs[i] = v;
    }
}
