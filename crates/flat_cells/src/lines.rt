// What is kept and known of the lines so far.
ghost use Rattle.std.specs.Prelude.{◌≡◌, ◌≤◌, ◌^◌};
ghost use Rattle.flattening.specs.Model.Cells.{constant_of, Sound};
ghost use Rattle.flattening.specs.Model.Lines.{notes, sort_line, word_line, bit_in, con_in, deep_in, wide_in, size_in};

use crate::cells::{AT, BIT, KEPT};
use crate::{cells, sources};
use tables::Note;

// What is kept of each line, and the types of all lines, as a check notes them.
#[derive(Clone, Copy)]
pub struct Lines<'a> {
    pub kept: &'a [[u32; KEPT]],
    pub types: &'a [Note],
}

impl Lines<'_> {
    // The flat sort line of a cell of the sort s.
    pub fn sort_line(self, s: u64) -> u64
        ensures { result ≡ sort_line (notes self.entry.kept.now self.entry.types.now) s }
    {
        cells::entry(self.kept, AT, s)
    }

    // The width-1 sort line of the sort s, or of the sort of a value.
    pub fn bit_line(self, s: u64) -> u64
        ensures { result ≡ bit_in (notes self.entry.kept.now self.entry.types.now) s }
    {
        cells::entry(self.kept, BIT, s)
    }

    // The flat line of the word a.
    pub fn word_line(self, a: u64) -> u64
        requires { Sound self.kept.now }
        ensures { result ≡ word_line (notes self.entry.kept.now self.entry.types.now) a }
    {
        cells::cell(self.kept, a, 0)
    }

    // The value of the line a, where it is a small constant.
    pub fn constant(self, a: u64) -> Option<u64>
        ensures { result ≡ constant_of (con_in (notes self.entry.kept.now self.entry.types.now) a) }
    {
        cells::constant(self.kept, a)
    }

    // The cells of the line a.
    pub fn size(self, a: u64) -> usize
        requires { deep_in (notes self.kept.now self.types.now) a ≤ 8 }
        ensures { result ≡ size_in (notes self.entry.kept.now self.entry.types.now) a }
    {
        sources::size(self.types, a)
    }

    // The cells of an array whose index sort is the line a.
    pub fn index_size(self, a: u64) -> usize
        requires { wide_in (notes self.kept.now self.types.now) a ≤ 8 }
        ensures { result ≡ 2 ^ wide_in (notes self.entry.kept.now self.entry.types.now) a }
    {
        sources::index_size(self.types, a)
    }
}
