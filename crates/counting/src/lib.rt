// Sums, counts, built lists and sets of boxes. Plain mathematics: this crate has definitions in specs/ and laws in
// proofs/, and no code.
#![tactic(auto)]
