// What the diagnostics and the verdict of an image are, and what the verdict guarantees: definitions in specs/, theorems in proofs/. The code that
// gives them is in `validator`.
#![tactic(auto)]
