// What the roles, the bindings and the refusals of an image are: definitions in specs/, laws in proofs/. The code that finds them is in `roles`.
#![tactic(auto)]
