// Exact fractions and the value of a float: definitions (specs/) and laws (proofs/), no functions. docs/FRACTIONS.md lists the main
// theorems.
#![tactic(auto)]
