// The letters of the words of lines, each under a name of one letter, so that a row of words stands on one line.
pub const A: u8 = b'a';

pub const B: u8 = b'b';

pub const C: u8 = b'c';

pub const D: u8 = b'd';

pub const E: u8 = b'e';

pub const F: u8 = b'f';

pub const G: u8 = b'g';

pub const H: u8 = b'h';

pub const I: u8 = b'i';

pub const L: u8 = b'l';

pub const M: u8 = b'm';

pub const N: u8 = b'n';

pub const O: u8 = b'o';

pub const P: u8 = b'p';

pub const Q: u8 = b'q';

pub const R: u8 = b'r';

pub const S: u8 = b's';

pub const T: u8 = b't';

pub const U: u8 = b'u';

pub const V: u8 = b'v';

pub const W: u8 = b'w';

pub const X: u8 = b'x';

pub const Y: u8 = b'y';

pub const Z: u8 = b'z';
