// Agreement: that the runs of a circuit, of its flat circuit and of that one's program are alike, and that ids have no part in what operations answer. There is no code here;
// `specs/` has the claims, `proofs/` their proofs.
#![tactic(auto)]
