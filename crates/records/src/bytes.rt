// Lists of bytes that are lent: texts and signals.
ghost use Rattle.std.specs.Prelude.{◌≡◌, length, replicate};

// Every entry is 0: for bytes what `records::clear` is for words. What the two share, `fill`, is one line in each; a trait for the 0 of both types would be longer.
pub fn clear(xs: &mut [u8])
    ensures { xs.new ≡ replicate (length xs.old) 0 }
{
    xs.fill(0);
}
