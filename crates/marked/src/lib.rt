// The cases that docs/SCOPE.md marks to be proved, one list in specs/ with one claim over it in proofs/, and the five
// worthless builds, each with the case that refutes it. No code.
#![tactic(auto)]
