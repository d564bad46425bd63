// The one number that a C call returns, and what the header's accessors read from it: definitions in specs/, laws in proofs/. The code is in `luad51`.
#![tactic(auto)]
