// Circuits: what the lines of a circuit and of a program mean, a step, a run, the first counted bad.
// The code is in `area`, `places`, `free_states`, `evaluation`, `state_lines`, `step_dispatch`, `steps`, `bad`, `engine` and `runs`.
#![tactic(auto)]

// The first counted bad of a run: its step, and its place among the bad lines, from 1 on.
#[derive(Clone, Copy)]
pub struct FirstBad {
    pub step: usize,
    pub place: usize,
}

// How many there are: cells of value lines, state words, inputs, signals, and state words that are free.
#[derive(Clone, Copy)]
pub struct Totals {
    pub cells: usize,
    pub states: usize,
    pub inputs: usize,
    pub signals: usize,
    pub free: usize,
}

// A line's first word among the cells, and its place.
#[derive(Clone, Copy)]
pub struct Spot {
    pub off: usize,
    pub at: usize,
}
