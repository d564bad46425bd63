// The listing that packcheck reads and the text that it writes: definitions in specs/, laws in proofs/. The code is in `listing`.
#![tactic(auto)]
