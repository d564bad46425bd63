// What the other crates share, apart from instruction words: numbers in bytes, in src/bytes.rt; lists and their laws, in specs/ and proofs/.
#![tactic(auto)]

pub mod bytes;
