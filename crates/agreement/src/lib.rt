// Demand 3, the agreement itself: statements in specs/, theorems in proofs/, and no code.
#![tactic(auto)]
