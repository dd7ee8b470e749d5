// Peeks: one value of a circuit at step 0. The code is in `peek_values`, `peek_cells` and `peeking`.
#![tactic(auto)]
