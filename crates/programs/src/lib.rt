// Programs: the program of a flat circuit, that it is accepted and that it runs as the circuit does. The code is in `uses`, `masks`, `passes` and `translating`.
#![tactic(auto)]

// What is known of a line: the width of a sort or value, the instruction that uses of it take (its mask where it has one), and whether it is loose.
#[derive(Clone, Copy)]
pub struct Known {
    pub width: u64,
    pub number: u64,
    pub loose: bool,
}

// What is known of no line.
pub const NONE_KNOWN: Known = Known {
    width: 0,
    number: 0,
    loose: false,
};
