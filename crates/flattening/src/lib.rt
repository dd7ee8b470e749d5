// Flattening: the flat circuit, that it is accepted and that it runs as its circuit does. The code is in
// `flat_cells`, `flat_chains`, `flat_lines`, `flat_arrays`, `flat_dispatch`, `flat_counts` and `flatten`.
#![tactic(auto)]

// The words of a row: the flat lines of a line's cells, or the numbers base + step * j.
#[derive(Clone, Copy)]
pub enum Words {
    Cells(u64),
    Numbers { base: u64, step: u64 },
}

// Where the words of a row of records come from. A falling row counts j down from its top.
#[derive(Clone, Copy)]
pub struct Source {
    pub words: Words,
    pub top: Option<u64>,
}

// What a line leaves: the flat lines so far, and what is kept of it for later lines. Of a sort `at` is the flat sort line of a cell; of a value it is, with `key`, where its
// cells are held, and `old` the line that it writes over, if any; `bit` is the width-1 sort line of an array sort, and `con` the value of a small constant.
#[derive(Clone, Copy)]
pub struct Made {
    pub next: usize,
    pub at: u64,
    pub bit: u64,
    pub old: Option<u64>,
    pub key: u64,
    pub con: Option<u8>,
}
